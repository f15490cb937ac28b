// What the machine does once a call is accepted.
ghost use Rattle.std.specs.Prelude.{◌≡◌, ◌<◌, true, false, Some};
ghost use Rattle.kinds.specs.Kinds.{choice_of, lands_directly};
ghost use Rattle.model.specs.Lists.{oldest};
ghost use Rattle.port.specs.Holdings.{after_direct, after_landing, after_newest, after_old, after_put, after_reconcile, landed, newest, shown, store_at, store_of, total};
ghost use Rattle.machine.specs.View.{held_of};

use super::Buffered;
use crate::access::Access;
use crate::parts::overwrite;
use buffers::At;
use model::{Origin, WaitingStore};

impl<const KIND: u8> Buffered<KIND> {
    // The processor sees the newest, and no older copy from then on.
    pub(crate) fn load_newest(&mut self, access: Access) -> (u32, Origin)
        ensures value { result ≡ newest (held_of self.old) access.processor access.address }
        ensures held { held_of self.new ≡ after_newest (held_of self.old) access.processor access.address }
    {
        let read = self.seen(access);
        self.processors.forget_at(access);
        read
    }

    // The processor has read the copy with that serial, and sees no older one from then on.
    pub(crate) fn let_older_go(&mut self, access: Access, serial: u8)
        ensures { held_of self.new ≡ after_old (held_of self.old) access.processor access.address serial }
    {
        self.processors.forget_older(access, serial);
    }

    // The processor sees no copy from then on.
    pub(crate) fn let_all_go(&mut self, processor: u8)
        ensures { held_of self.new ≡ after_reconcile (held_of self.old) processor }
    {
        self.processors.forget_all(processor);
    }

    // The store of a word, by the instruction at that place, waits as the processor's youngest.
    pub(crate) fn put_behind(&mut self, access: Access, word: u32, place: u8)
        requires waits { lands_directly KIND ≡ false }
        requires room { total (held_of self.old) < 64 }
        ensures { held_of self.new ≡ after_put (held_of self.old) access.processor (store_of access.processor access.address word place) }
    {
        self.processors.forget_at(access);
        let store = access.store(word, place);
        let _ = self.processors.waiting.push(access.processor, store);
    }

    // It lands directly.
    pub(crate) fn put_through(&mut self, access: Access, word: u32, place: u8) -> (u32, u8, Origin)
        requires lands { lands_directly KIND ≡ true }
        requires room { total (held_of self.old) < 64 }
        ensures value { result ≡ shown (landed ((held_of self.old).cell access.address) (store_of access.processor access.address word place)) }
        ensures held { held_of self.new ≡ after_direct (held_of self.old) access.processor (store_of access.processor access.address word place) ((choice_of KIND (held_of self.old)).keeps access.processor access.address) }
    {
        let cell = self.cells[access.address as usize];
        self.processors.forget_at(access);
        self.processors.keep(KIND, access, cell);
        overwrite(&mut self.cells, access, access.store(word, place))
    }

    // The store, the processor's oldest at the address, lands.
    pub(crate) fn land_oldest(&mut self, access: Access, store: WaitingStore) -> (u32, u8, Origin)
        requires { oldest (store_at access.address) ((held_of self.old).waits access.processor) ≡ Some store }
        ensures value { result ≡ shown (landed ((held_of self.old).cell access.address) store) }
        ensures held { held_of self.new ≡ after_landing (held_of self.old) access.processor access.address store ((choice_of KIND (held_of self.old)).keeps access.processor access.address) }
    {
        let address = access.address;
        let cell = self.cells[address as usize];
        self.processors.keep(KIND, access, cell);
        let _ = self
            .processors
            .waiting
            .remove_oldest(access.processor, &At { address });
        overwrite(&mut self.cells, access, store)
    }
}
