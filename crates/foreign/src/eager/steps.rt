// What an eager machine looks up before a call, and does after one.
ghost use Rattle.std.specs.Prelude.{◌≡◌, ◌<◌, length, ◌==◌};
ghost use Rattle.port.specs.Holdings.{after_newest};
ghost use Rattle.machine.specs.View.{held_of};
ghost use Rattle.foreign.specs.Eager.{full, without_even};

use super::Eager;
use port::Memory;

// This many stores of a processor may wait.
const LIMIT: usize = 2;

// The processor lets go of its copies of the address.
fn forget<M: Memory>(below: &mut M, processor: u8, address: u8)
    requires on_core { processor < 4 }
    requires on_map { address < 8 }
    ensures { M.held below.new ≡ after_newest (M.held below.old) processor address }
{
    let _ = below.newest(processor, address);
}

// The even processors let go of theirs.
pub(super) fn forget_even<M: Memory>(below: &mut M, address: u8)
    requires { address < 8 }
    ensures { M.held below.new ≡ without_even (M.held below.old) address }
{
    forget(below, 0, address);
    forget(below, 2, address);
}

impl Eager {
    // How many stores of the processor wait.
    fn pending(&self, processor: u8) -> usize
        ensures { result ≡ length ((held_of self.now.below).waits processor) }
    {
        self.below.counts(processor).map_or(0, |(stores, _)| stores)
    }

    // Whether no store of the processor waits.
    pub(super) fn nothing_waits(&self, processor: u8) -> bool
        ensures { result ≡ (length ((held_of self.now.below).waits processor) == 0) }
    {
        self.pending(processor) == 0
    }

    // Whether only the limit speaks against one store more.
    pub(super) fn is_full(&self, processor: u8, address: u8) -> bool
        ensures { result ≡ full (held_of self.now.below) processor address }
    {
        self.pending(processor) >= LIMIT && address < 8 && self.below.total() < 64
    }
}
