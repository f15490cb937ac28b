// What the processors hold beside memory: waiting stores and stale copies.
ghost use Rattle.std.specs.Prelude.{◌≡◌, ℕ, ◌<◌, ◌≤◌, ◌&&◌, [], IfOk, length};
ghost use Rattle.buffers.specs.View.{buffer_of};
ghost use Rattle.kinds.specs.Kinds.{keeps_copies};
ghost use Rattle.model.specs.Lists.{upd, without};
ghost use Rattle.port.specs.Holdings.{copy_at, keeping, may_keep_in, older_copy, pending};

use crate::access::Access;
use buffers::{At, Buffers, Older, any};
use kinds::keeps_copies;
use model::{Cell, StaleCopy, WaitingStore};
use std::alloc::{AllocError, Global};

// A store buffer and a buffer of stale copies for each processor.
#[derive(Drop)]
pub struct Processors {
    pub waiting: Buffers<WaitingStore>,
    pub copies: Buffers<StaleCopy>,
}

impl Processors {
    // Processors that hold nothing, with all the room that they will ever need.
    pub fn new(heap: Global) -> Result<Processors, AllocError>
        ensures waiting { IfOk result (λ new. buffer_of new.waiting ≡ (λ p. [])) }
        ensures copies { IfOk result (λ new. buffer_of new.copies ≡ (λ p. [])) }
    {
        let waiting = Buffers::new(heap)?;
        let copies = Buffers::new(heap)?;
        Ok(Processors { waiting, copies })
    }

    // Nothing waits, and no copy is held.
    pub fn clear(&mut self)
        ensures waiting { buffer_of self.new.waiting ≡ (λ p. []) }
        ensures copies { buffer_of self.new.copies ≡ (λ p. []) }
    {
        self.waiting.clear_all();
        self.copies.clear_all();
    }

    // How many stores wait.
    pub fn pending(&self) -> usize
        requires { pending (buffer_of self.now.waiting) ≤ 64 }
        ensures { result ≡ pending (buffer_of self.now.waiting) }
    {
        // four terms, plainer than a sum over `0..4`, whose bound and value want a lemma each
        let waiting = &self.waiting;
        waiting.of(0).len() + waiting.of(1).len() + waiting.of(2).len() + waiting.of(3).len()
    }

    // The processor lets go of its copies of the address.
    pub fn forget_at(&mut self, access: Access)
        ensures waiting { self.new.waiting ≡ self.old.waiting }
        ensures copies { buffer_of self.new.copies ≡ upd (buffer_of self.old.copies) access.processor (without (copy_at access.address) (buffer_of self.old.copies access.processor)) }
    {
        let address = access.address;
        self.copies.remove_all(access.processor, &At { address });
    }

    // The processor lets go of its copies of the address with smaller serials.
    pub fn forget_older(&mut self, access: Access, serial: u8)
        ensures waiting { self.new.waiting ≡ self.old.waiting }
        ensures copies { buffer_of self.new.copies ≡ upd (buffer_of self.old.copies) access.processor (without (older_copy access.address serial) (buffer_of self.old.copies access.processor)) }
    {
        let address = access.address;
        self.copies
            .remove_all(access.processor, &Older { address, serial });
    }

    // The processor lets go of all its copies.
    pub fn forget_all(&mut self, processor: u8)
        ensures waiting { self.new.waiting ≡ self.old.waiting }
        ensures copies { buffer_of self.new.copies ≡ upd (buffer_of self.old.copies) processor [] }
    {
        self.copies.clear(processor);
    }

    // Every processor that may keep one gets a copy of the cell that a store overwrites as it lands.
    // The kind is the machine's const parameter, so a number.
    pub fn keep(&mut self, kind: u8, landing: Access, cell: Cell)
        requires { (q : ℕ) → length (buffer_of self.old.copies q) < 64 }
        ensures waiting { self.new.waiting ≡ self.old.waiting }
        ensures copies { buffer_of self.new.copies ≡ keeping (λ q. keeps_copies kind && may_keep_in (buffer_of self.old.waiting) landing.processor landing.address q) (record { address = landing.address; cell = cell }) (buffer_of self.old.copies) }
    {
        if !keeps_copies(kind) {
            return;
        }
        // by number, as the buffers are reached
        for processor in 0..4 {
            self.keep_one(landing, cell, processor);
        }
    }

    // One processor keeps it if it may.
    fn keep_one(&mut self, landing: Access, cell: Cell, processor: u8)
        requires { length (buffer_of self.old.copies processor) < 64 }
        ensures waiting { self.new.waiting ≡ self.old.waiting }
        ensures copies { buffer_of self.new.copies ≡ upd (buffer_of self.old.copies) processor (keeping (may_keep_in (buffer_of self.old.waiting) landing.processor landing.address) (record { address = landing.address; cell = cell }) (buffer_of self.old.copies) processor) }
    {
        if self.may_keep(landing, processor) {
            let address = landing.address;
            let _ = self.copies.push(processor, StaleCopy { address, cell });
        }
    }

    // Whether a processor may keep a copy: another than the one whose store lands, with no store of
    // its own waiting at the address.
    fn may_keep(&self, landing: Access, processor: u8) -> bool
        ensures { result ≡ may_keep_in (buffer_of self.now.waiting) landing.processor landing.address processor }
    {
        let address = landing.address;
        processor < 4
            && processor != landing.processor
            && !any(self.waiting.of(processor), &At { address })
    }
}
