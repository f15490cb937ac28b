// Kinds of machine.
ghost use Rattle.std.specs.Prelude.{ℕ};
ghost use Rattle.model.specs.Tables.{AtLeast, wmm_table};
ghost use Rattle.model.specs.Orders.{Table};
ghost use Rattle.port.specs.Laws.{Sound, Bounds, Progress, NoCopies, InOrder, Direct};

use crate::memory::Memory;
use model::Table;

// A kind of machine: its number and its ordering table, and the laws that tie the table to what
// the machine holds and chooses, at every value.
pub trait Port: Memory {
    // The number, in code and in clauses. It is no enum, since kinds to come have numbers of theirs.
    const NUMBER: u8;

    ghost NUMBER: { ℕ };

    // The ordering table, in code and in clauses.
    const TABLE: Table;

    ghost TABLE: { Table };

    // The meaning of the port holds.
    ghost sound: { (m : Self) → Sound (Self.Memory.held m) };

    // The kind chooses within the port's bounds.
    ghost bounds: { (m : Self) → Bounds (Self.Memory.held m) (Self.Memory.choice m) };

    // The first law: the kind itself never stops a run that could go on.
    ghost progress: { (m : Self) → Progress (Self.Memory.held m) (Self.Memory.choice m) };

    // The second: the table demands at least what WMM's does.
    ghost floor: { AtLeast wmm_table TABLE };

    // The third: where the table leaves no room for a stale copy, there is none.
    ghost copyless: { (m : Self) → NoCopies TABLE (Self.Memory.held m) (Self.Memory.choice m) };

    // The fourth: where the table keeps the order of stores, only the oldest lands.
    ghost ordered: { (m : Self) → InOrder TABLE (Self.Memory.held m) (Self.Memory.choice m) };

    // The fifth: where the table leaves no room for a waiting store, every put lands directly.
    ghost direct: { (m : Self) → Direct TABLE (Self.Memory.choice m) };
}
