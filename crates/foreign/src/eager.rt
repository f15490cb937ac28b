// A kind that is none of the four.
ghost use Rattle.std.specs.Prelude.{◌≤◌};
ghost use Rattle.machine.specs.View.{held_of};
ghost use Rattle.foreign.specs.Eager.{evens};

use machine::Wmm;

mod making;
mod serving;
mod steps;

// A machine that lands a store directly where nothing of its processor waits. At most two stores
// of a processor wait, and only odd processors keep stale copies. It is built over WMM, by calls
// of the port alone.
#[derive(Drop)]
pub struct Eager {
    below: Wmm,
    ghost odd: { evens (held_of below) ≤ 0 },
}
