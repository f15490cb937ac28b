// A layer over a machine.
ghost use Rattle.std.specs.Prelude.{◌≡◌};

use model::{Cell, Fault, Origin, StaleCopy, Table, WaitingStore};
use port::{Memory, Port, Stored};

// A layer that passes every call on. It is itself a machine, of the kind of the one below.
#[derive(Drop)]
pub struct Passing<M: Port> {
    below: M,
}

impl<M: Port> Passing<M> {
    // The layer over that machine.
    pub fn over(below: M) -> Passing<M>
        ensures { result.below ≡ below }
    {
        Passing { below }
    }
}

// Written out, since the gate takes no impl of a macro.
impl<M: Port> Memory for Passing<M> {
    ghost held = { λ m. M.Memory.held m.below };

    ghost choice = { λ m. M.Memory.choice m.below };

    ghost settings = { λ m. M.Memory.settings m.below };

    fn newest(&mut self, processor: u8, address: u8) -> Result<(u32, Origin), Fault> {
        self.below.newest(processor, address)
    }

    fn old(&mut self, processor: u8, address: u8, serial: u8) -> Result<(u32, Origin), Fault> {
        self.below.old(processor, address, serial)
    }

    fn put(&mut self, processor: u8, address: u8, word: u32, place: u8) -> Result<Stored, Fault> {
        self.below.put(processor, address, word, place)
    }

    fn landing(&mut self, processor: u8, address: u8) -> Result<(u32, u8, Origin), Fault> {
        self.below.landing(processor, address)
    }

    fn commit(&self, processor: u8) -> Result<(), Fault> {
        self.below.commit(processor)
    }

    fn reconcile(&mut self, processor: u8) -> Result<(), Fault> {
        self.below.reconcile(processor)
    }

    fn renew(&mut self) {
        self.below.renew();
    }

    fn cell(&self, address: u8) -> Result<Cell, Fault> {
        self.below.cell(address)
    }

    fn waiting(&self, processor: u8, index: usize) -> Result<Option<WaitingStore>, Fault> {
        self.below.waiting(processor, index)
    }

    fn copy(&self, processor: u8, index: usize) -> Result<Option<StaleCopy>, Fault> {
        self.below.copy(processor, index)
    }

    fn counts(&self, processor: u8) -> Result<(usize, usize), Fault> {
        self.below.counts(processor)
    }

    fn total(&self) -> usize {
        self.below.total()
    }
}

impl<M: Port> Port for Passing<M> {
    const NUMBER: u8 = M::NUMBER;

    ghost NUMBER = { M.Port.NUMBER };

    const TABLE: Table = M::TABLE;

    ghost TABLE = { M.Port.TABLE };

    ghost sound = { λ m. M.Port.sound m.below };

    ghost bounds = { λ m. M.Port.bounds m.below };

    ghost progress = { λ m. M.Port.progress m.below };

    ghost floor = { M.Port.floor };

    // Field by field, as the next, so that each is held to the table by itself.
    ghost copyless = { λ m.
        let below = M.Port.copyless m.below in
        record { holds = below.holds; keeps = below.keeps } };

    ghost ordered = { λ m.
        let below = M.Port.ordered m.below in
        record { put = below.put; landing = below.landing } };

    ghost direct = { λ m. M.Port.direct m.below };
}
