// Ordering tables: which instructions of a processor keep their order in memory.
ghost use Rattle.std.specs.Prelude.{◌≡◌};
ghost use Rattle.model.specs.Orders.{at_line_kind, demanded, entry};

use crate::line::LineKind;
use std::ops::Index;

// Whether an earlier instruction must stand above a later one of its processor.
#[derive(Clone, Copy, PartialEq, Eq, Debug)]
pub enum Order {
    Never,
    SameAddress,
    Always,
}

impl Order {
    // Whether two instructions are ordered, given whether their addresses are equal.
    pub fn demands(self, same_address: bool) -> bool
        ensures { result ≡ demanded self same_address }
    {
        match self {
            Order::Never => false,
            Order::SameAddress => same_address,
            Order::Always => true,
        }
    }
}

// One value for each kind of instruction.
#[derive(Clone, Copy, PartialEq, Eq, Debug)]
pub struct PerLineKind<T> {
    pub load: T,
    pub store: T,
    pub reconcile: T,
    pub commit: T,
}

// The entries of one earlier instruction, by the kind of the later one.
pub type Row = PerLineKind<Order>;

// An ordering table: a row for each kind of the earlier instruction.
pub type Table = PerLineKind<Row>;

impl<T> Index<LineKind> for PerLineKind<T> {
    type Output = T;

    ghost index_gives = { λ values kind value. value ≡ at_line_kind values kind };

    fn index(&self, kind: LineKind) -> &T {
        match kind {
            LineKind::Load => &self.load,
            LineKind::Store => &self.store,
            LineKind::Reconcile => &self.reconcile,
            LineKind::Commit => &self.commit,
        }
    }
}

impl Table {
    // The entry at an earlier and a later instruction.
    pub fn entry(&self, earlier: LineKind, later: LineKind) -> Order
        ensures { result ≡ entry self.now earlier later }
    {
        // a row by its arm and not by index: with a table that is known, as a kind's is, indexing twice
        // takes nearly twice the time
        match earlier {
            LineKind::Load => self.load[later],
            LineKind::Store => self.store[later],
            LineKind::Reconcile => self.reconcile[later],
            LineKind::Commit => self.commit[later],
        }
    }
}
