// The kinds of machine.
ghost use Rattle.std.specs.Prelude.{◌≡◌, Some};
ghost use Rattle.model.specs.Decoding.{IsDecoded};
ghost use Rattle.model.specs.Kinds.{DecodesKind, kind_name, kind_number, kind_numbered};
ghost use Rattle.model.specs.declared.fault.Refusal.TheVariants.{Count};

use crate::fault::Refusal;
use std::fmt;

// A kind of machine: the memory model that a chip publishes.
#[derive(Clone, Copy, PartialEq, Eq, Debug)]
pub enum Kind {
    // sequential consistency
    Sc = 0,
    // total store order
    Tso = 1,
    // partial store order
    Pso = 2,
    // the weak memory model with an invalidation buffer
    Wmm = 3,
}

// A kind's number in a sheet.
impl From<Kind> for u8 {
    ghost from_gives = { λ kind number. number ≡ kind_number kind };

    fn from(kind: Kind) -> u8 {
        kind as u8
    }
}

// The kind of a number; past the last there is none.
impl TryFrom<u8> for Kind {
    type Error = Refusal;

    ghost try_from_gives = { IsDecoded kind_numbered DecodesKind Count };

    fn try_from(number: u8) -> Result<Kind, Refusal> {
        match number {
            0 => Ok(Kind::Sc),
            1 => Ok(Kind::Tso),
            2 => Ok(Kind::Pso),
            3 => Ok(Kind::Wmm),
            _ => Err(Refusal::Count),
        }
    }
}

// A kind's name in print.
impl fmt::Display for Kind {
    ghost output = { λ kind. Some (kind_name kind) };

    fn fmt<W: fmt::Write>(&self, f: &mut fmt::Formatter<W>) -> fmt::Result {
        f.pad(match self {
            Kind::Sc => "SC",
            Kind::Tso => "TSO",
            Kind::Pso => "PSO",
            Kind::Wmm => "WMM",
        })
    }
}
