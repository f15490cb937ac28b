// The calls of the port, and the laws of the kind.
ghost use Rattle.std.specs.Prelude.{[]};
ghost use Rattle.model.specs.Tables.{wmm_table};
ghost use Rattle.machine.specs.View.{held_of};
ghost use Rattle.foreign.specs.Eager.{eager_choice};
ghost use Rattle.foreign.specs.EagerLaws.{eager_bounds, eager_progress, eager_copyless, eager_ordered, eager_direct};
ghost use Rattle.kinds.proofs.Laws.{floor_of};
ghost use Rattle.machine.specs.Soundness.{sound_value};

use super::Eager;
use super::steps::forget_even;
use kinds::WMM_TABLE;
use model::{Cell, Fault, Layer, Origin, Refusal, StaleCopy, Table, WaitingStore};
use port::{Memory, Port, Stored};

// What it passes on is written out, here and in the layer, since the gate takes no impl of a macro.
impl Memory for Eager {
    ghost held = { λ m. held_of m.below };

    ghost choice = { λ m. eager_choice (held_of m.below) };

    ghost settings = { λ m. [] };

    fn newest(&mut self, processor: u8, address: u8) -> Result<(u32, Origin), Fault> {
        self.below.newest(processor, address)
    }

    fn old(&mut self, processor: u8, address: u8, serial: u8) -> Result<(u32, Origin), Fault> {
        self.below.old(processor, address, serial)
    }

    // The store lands directly if nothing of its processor waits, and else waits within the limit.
    fn put(&mut self, processor: u8, address: u8, word: u32, place: u8) -> Result<Stored, Fault> {
        if self.is_full(processor, address) {
            return Err(Layer::Machine.refuses(Refusal::Held, usize::from(processor)));
        }
        let first = self.nothing_waits(processor);
        let stored = self.below.put(processor, address, word, place)?;
        if first {
            return Ok(Stored::Landed(self.landing(processor, address)?));
        }
        Ok(stored)
    }

    // Only odd processors keep a copy.
    fn landing(&mut self, processor: u8, address: u8) -> Result<(u32, u8, Origin), Fault> {
        let landed = self.below.landing(processor, address)?;
        forget_even(&mut self.below, address);
        Ok(landed)
    }

    fn commit(&self, processor: u8) -> Result<(), Fault> {
        self.below.commit(processor)
    }

    fn reconcile(&mut self, processor: u8) -> Result<(), Fault> {
        self.below.reconcile(processor)
    }

    fn renew(&mut self) {
        self.below.renew();
    }

    fn cell(&self, address: u8) -> Result<Cell, Fault> {
        self.below.cell(address)
    }

    fn waiting(&self, processor: u8, index: usize) -> Result<Option<WaitingStore>, Fault> {
        self.below.waiting(processor, index)
    }

    fn copy(&self, processor: u8, index: usize) -> Result<Option<StaleCopy>, Fault> {
        self.below.copy(processor, index)
    }

    fn counts(&self, processor: u8) -> Result<(usize, usize), Fault> {
        self.below.counts(processor)
    }

    fn total(&self) -> usize {
        self.below.total()
    }
}

// The table is that of WMM.
impl Port for Eager {
    const NUMBER: u8 = 9;

    ghost NUMBER = { 9 };

    const TABLE: Table = WMM_TABLE;

    ghost TABLE = { wmm_table };

    ghost sound = { λ m. sound_value 3 m.below };

    ghost bounds = { λ m. eager_bounds (held_of m.below) };

    ghost progress = { λ m. eager_progress (held_of m.below) };

    ghost floor = { floor_of 3 };

    ghost copyless = { λ m. eager_copyless (held_of m.below) };

    ghost ordered = { λ m. eager_ordered (held_of m.below) };

    ghost direct = { λ m. eager_direct (held_of m.below) };
}
