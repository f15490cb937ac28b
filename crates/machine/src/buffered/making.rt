// How a machine is made.
ghost use Rattle.std.specs.Prelude.{◌≡◌, IfOk};
ghost use Rattle.port.specs.Holdings.{nothing_yet};
ghost use Rattle.machine.specs.View.{held_of};

use super::Buffered;
use crate::parts::initial_cells;
use crate::processors::Processors;
use port::Fresh;
use std::alloc::{AllocError, Global};

impl<const KIND: u8> Buffered<KIND> {
    // A new machine, with all the room that it will ever need.
    pub fn new(heap: Global) -> Result<Buffered<KIND>, AllocError>
        ensures { IfOk result (λ m. held_of m ≡ nothing_yet) }
    {
        let processors = Processors::new(heap)?;
        let cells = initial_cells();
        Ok(Buffered { cells, processors })
    }
}

impl<const KIND: u8> Fresh for Buffered<KIND> {
    fn fresh(heap: Global) -> Result<Buffered<KIND>, AllocError> {
        Buffered::new(heap)
    }
}
