// How an eager machine is made.
ghost use Rattle.std.specs.Prelude.{◌≡◌, IfOk};
ghost use Rattle.port.specs.Holdings.{nothing_yet};
ghost use Rattle.machine.specs.View.{held_of};

use super::Eager;
use machine::Wmm;
use port::Fresh;
use std::alloc::{AllocError, Global};

impl Eager {
    // A new machine.
    pub fn new(heap: Global) -> Result<Eager, AllocError>
        ensures { IfOk result (λ m. held_of m.below ≡ nothing_yet) }
    {
        let below = Wmm::new(heap)?;
        Ok(Eager { below })
    }
}

impl Fresh for Eager {
    fn fresh(heap: Global) -> Result<Eager, AllocError> {
        Eager::new(heap)
    }
}
