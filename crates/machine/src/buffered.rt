// The machine that all four kinds share.
ghost use Rattle.std.specs.Prelude.{◌≡◌, ◌≤◌, length};
ghost use Rattle.kinds.specs.Invariants.{Few, Stale};
ghost use Rattle.kinds.specs.Kinds.{Plain};
ghost use Rattle.port.specs.Holdings.{total};
ghost use Rattle.machine.specs.Parts.{held_in};

use crate::processors::Processors;
use model::Cell;

mod looking;
mod making;
mod moves;
mod serving;

// A machine of the kind with that number: atomic memory, and for each processor a store buffer and
// a buffer of stale copies. The kind is a number, since a const parameter can be no enum.
#[derive(Drop)]
pub struct Buffered<const KIND: u8> {
    cells: [Cell; 8],
    processors: Processors,
    // the laws speak of any value, and an array's length is known in code alone
    ghost whole: { length cells ≡ 8 },
    // all serials and waiting stores add up to at most 64
    ghost bounded: { total (held_in cells processors) ≤ 64 },
    // no processor holds more copies than stores have landed, so that there is room for them
    ghost few: { Few (held_in cells processors) },
    // copies are of overwritten cells, rise, and stand where no own store waits
    ghost stale: { Stale (held_in cells processors) },
    // where stores land directly nothing waits, and where no copies are kept there are none
    ghost plain: { Plain KIND (held_in cells processors) },
}
