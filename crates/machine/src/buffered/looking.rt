// What a call looks up before it acts.
ghost use Rattle.std.specs.Prelude.{◌≡◌, not, ◌&&◌, length, ◌==◌};
ghost use Rattle.kinds.specs.Kinds.{behind, lands_in_order};
ghost use Rattle.model.specs.Lists.{oldest};
ghost use Rattle.port.specs.Holdings.{exact_copy, newest, store_at, total};
ghost use Rattle.machine.specs.View.{held_of};

use super::Buffered;
use crate::access::Access;
use crate::parts::{behind, first, serials};
use buffers::{At, Exact, youngest};
use kinds::lands_in_order;
use model::{Origin, StaleCopy, WaitingStore};

impl<const KIND: u8> Buffered<KIND> {
    // All serials and all waiting stores.
    pub(crate) fn taken(&self) -> usize
        ensures { result ≡ total (held_of self.now) }
    {
        serials(&self.cells) + self.processors.pending()
    }

    // Whether the machine takes no more stores.
    pub(crate) fn spent(&self) -> bool
        ensures { result ≡ (total (held_of self.now) == 64) }
    {
        self.taken() == 64
    }

    // The processor's waiting stores, oldest first.
    pub(crate) fn waiting_of(&self, processor: u8) -> &[WaitingStore]
        ensures { result.now ≡ (held_of self.now).waits processor }
    {
        self.processors.waiting.of(processor)
    }

    // The processor's copies, oldest first.
    pub(crate) fn copies_of(&self, processor: u8) -> &[StaleCopy]
        ensures { result.now ≡ (held_of self.now).copies processor }
    {
        self.processors.copies.of(processor)
    }

    // Whether a store of the processor waits.
    pub(crate) fn waits(&self, processor: u8) -> bool
        ensures { result ≡ not (length ((held_of self.now).waits processor) == 0) }
    {
        !self.waiting_of(processor).is_empty()
    }

    // The youngest store of the processor that waits at the address, else the cell.
    pub(crate) fn seen(&self, access: Access) -> (u32, Origin)
        ensures { result ≡ newest (held_of self.now) access.processor access.address }
    {
        let address = access.address;
        match youngest(self.waiting_of(access.processor), &At { address }) {
            Some(store) => (store.word, store.origin),
            None => {
                let cell = self.cells[address as usize];
                (cell.word, cell.origin)
            }
        }
    }

    // The processor's copy of the address with that serial.
    pub(crate) fn copy_of(&self, access: Access, serial: u8) -> Option<StaleCopy>
        ensures { result ≡ oldest (exact_copy access.address serial) ((held_of self.now).copies access.processor) }
    {
        let address = access.address;
        first(self.copies_of(access.processor), &Exact { address, serial })
    }

    // The processor's oldest store that waits at the address.
    pub(crate) fn oldest_at(&self, access: Access) -> Option<WaitingStore>
        ensures { result ≡ oldest (store_at access.address) ((held_of self.now).waits access.processor) }
    {
        let address = access.address;
        first(self.waiting_of(access.processor), &At { address })
    }

    // Whether an older store of the processor's, at another address, must land first.
    pub(crate) fn held_back(&self, access: Access) -> bool
        ensures { result ≡ (lands_in_order KIND && behind (store_at access.address) ((held_of self.now).waits access.processor)) }
    {
        lands_in_order(KIND) && behind(self.waiting_of(access.processor), access.address)
    }
}
