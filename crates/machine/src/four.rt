// The four kinds, each by its number: the number, an ordering table, and the laws.
ghost use Rattle.kinds.specs.Kinds.{table_of};
ghost use Rattle.machine.specs.Soundness.{sound_value};
ghost use Rattle.kinds.proofs.Laws.{bounds_of, progress_of, floor_of, copyless_of, ordered_of, direct_of};
ghost use Rattle.machine.specs.View.{held_of};

use crate::buffered::Buffered;
use kinds::{PSO_TABLE, SC_TABLE, TSO_TABLE, WMM_TABLE};
use model::Table;
use port::Port;

// Sequential consistency: stores land directly.
pub type Sc = Buffered<0>;
// Total store order: stores wait, and land in their order.
pub type Tso = Buffered<1>;
// Partial store order: stores wait, and those of an address land in their order.
pub type Pso = Buffered<2>;
// The weak memory model: as partial store order, and overwritten cells can still be read.
pub type Wmm = Buffered<3>;

impl<const KIND: u8> Port for Buffered<KIND> {
    const NUMBER: u8 = KIND;

    ghost NUMBER = { KIND };

    const TABLE: Table = match KIND {
        0 => SC_TABLE,
        1 => TSO_TABLE,
        2 => PSO_TABLE,
        _ => WMM_TABLE,
    };

    ghost TABLE = { table_of KIND };

    ghost sound = { λ m. sound_value KIND m };

    ghost bounds = { λ m. bounds_of KIND (held_of m) m.plain };

    ghost progress = { λ m. progress_of KIND (held_of m) m.plain };

    ghost floor = { floor_of KIND };

    ghost copyless = { λ m. copyless_of KIND (held_of m) m.plain };

    ghost ordered = { λ m. ordered_of KIND (held_of m) m.plain };

    ghost direct = { λ m. direct_of KIND (held_of m) m.plain };
}
