// The four bytes of an instruction.
ghost use Rattle.std.specs.Prelude.{◌≡◌};
ghost use Rattle.isa.specs.Instrs.{Decodes, decoded, of_fields, of_kind};
ghost use Rattle.model.specs.Decoding.{IsDecoded};
ghost use Rattle.model.specs.declared.fault.Refusal.TheVariants.{Malformed};

use crate::fields::unused_are_zero;
use crate::instr::Instr;
use model::Refusal;

// How many registers a processor has.
const REGISTERS: u8 = 8;

// The instruction that bytes stand for: four of them, kind, d, s and c.
impl TryFrom<&[u8]> for Instr {
    type Error = Refusal;

    ghost try_from_gives = { λ bytes answer. IsDecoded decoded Decodes Malformed bytes.now answer };

    fn try_from(bytes: &[u8]) -> Result<Instr, Refusal> {
        let &[kind, d, s, c] = bytes else {
            return Err(Refusal::Malformed);
        };
        of_fields(kind, d, s, c).ok_or(Refusal::Malformed)
    }
}

// The instruction of four fields, if those that its kind does not use are 0. They stay apart, as
// the rules of the fields name them.
fn of_fields(kind: u8, d: u8, s: u8, c: u8) -> Option<Instr>
    ensures { result ≡ of_fields kind d s c }
{
    if !unused_are_zero(kind, d, s, c) {
        return None;
    }
    of_kind(kind, d, s, c)
}

// The instruction of a kind, if the registers that it names exist. The kind is a byte as it came
// in, by a rule of the project: an enum of kinds would name the variants of Instr a second time.
fn of_kind(kind: u8, d: u8, s: u8, c: u8) -> Option<Instr>
    ensures { result ≡ of_kind kind d s c }
{
    match kind {
        0 if d < REGISTERS => Some(Instr::Set {
            target: d,
            value: c,
        }),
        1 if d < REGISTERS && s < REGISTERS && c < REGISTERS => Some(Instr::Add {
            target: d,
            left: s,
            right: c,
        }),
        2 if d < REGISTERS && s < REGISTERS && c < REGISTERS => Some(Instr::Sub {
            target: d,
            left: s,
            right: c,
        }),
        3 if d < REGISTERS => Some(Instr::Branch {
            register: d,
            skip: c,
        }),
        4 if d < REGISTERS && s < REGISTERS => Some(Instr::Load {
            target: d,
            base: s,
            displacement: c,
        }),
        5 if d < REGISTERS && s < REGISTERS => Some(Instr::Store {
            source: d,
            base: s,
            displacement: c,
        }),
        6 => Some(Instr::Commit),
        7 => Some(Instr::Reconcile),
        _ => None,
    }
}
