// How a machine of any kind is made.
ghost use Rattle.std.specs.Prelude.{◌≡◌, IfOk};
ghost use Rattle.port.specs.Holdings.{nothing_yet};

use crate::memory::Memory;
use std::alloc::{AllocError, Global};

// A memory that can be made.
pub trait Fresh: Memory {
    // A new one, which holds nothing yet.
    fn fresh(heap: Global) -> Result<Self, AllocError>
        ensures { IfOk result (λ m. Self.Memory.held m ≡ nothing_yet) };
}
