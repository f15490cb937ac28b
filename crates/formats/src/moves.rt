// Moves and their three bytes.
ghost use Rattle.std.specs.Prelude.{Some};
ghost use Rattle.formats.specs.Moves.{DecodesMove, move_decoded, move_text};
ghost use Rattle.model.specs.Decoding.{IsDecoded};
ghost use Rattle.model.specs.declared.fault.Refusal.TheVariants.{Malformed};

use model::Refusal;
use std::fmt;

// A move that a planner proposes.
#[derive(Clone, Copy, PartialEq, Eq, Debug)]
pub enum Move {
    // run the processor's next instruction
    Step { processor: u8 },
    // run the processor's next instruction, a load, on the stale copy with the serial
    OldLoad { processor: u8, serial: u8 },
    // let the processor's oldest waiting store at the address reach memory
    Landing { processor: u8, address: u8 },
}

// The move that bytes stand for: three of them, a number, a processor and an operand.
impl TryFrom<&[u8]> for Move {
    type Error = Refusal;

    ghost try_from_gives = { λ bytes answer. IsDecoded move_decoded DecodesMove Malformed bytes.now answer };

    fn try_from(bytes: &[u8]) -> Result<Move, Refusal> {
        let &[number, processor, operand] = bytes else {
            return Err(Refusal::Malformed);
        };
        match number {
            0 if operand == 0 => Ok(Move::Step { processor }),
            1 => Ok(Move::OldLoad {
                processor,
                serial: operand,
            }),
            2 => Ok(Move::Landing {
                processor,
                address: operand,
            }),
            _ => Err(Refusal::Malformed),
        }
    }
}

impl fmt::Display for Move {
    ghost output = { λ m. Some (move_text m) };

    fn fmt<W: fmt::Write>(&self, f: &mut fmt::Formatter<W>) -> fmt::Result {
        match *self {
            Move::Step { processor } => write!(f, "step {processor}"),
            Move::OldLoad { processor, serial } => write!(
                f,
                "old load {processor} serial {serial}"
            ),
            Move::Landing { processor, address } => write!(
                f,
                "landing {processor} address {address}"
            ),
        }
    }
}
