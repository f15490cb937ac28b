// A thread of a card: where its instructions lie, and what they are.
ghost use Rattle.std.specs.Prelude.{◌≡◌, ◌<◌, nat_le, ok_or};
ghost use Rattle.std.specs.Result.{result_err};
ghost use Rattle.formats.specs.CardRules.{ThreadFits};
ghost use Rattle.formats.specs.Cards.{count_at, furthest, instr_byte, instr_bytes, instr_fault, instrs_fault, processors_in};
ghost use Rattle.isa.specs.Instrs.{decoded};
ghost use Rattle.model.specs.declared.fault.Refusal.TheVariants.{Malformed};

use crate::card::header::Header;
use isa::Instr;
use model::{Fault, Layer, Refusal};

// The thread of a processor, which lies within the bytes.
#[derive(Clone, Copy)]
pub struct Thread<'a> {
    pub header: Header<'a>,
    pub processor: u8,
    ghost named: { processor < processors_in header.bytes.now },
    ghost fits: { ThreadFits header.bytes.now processor },
}

impl Thread<'_> {
    // How many instructions the thread has.
    pub fn len(&self) -> u8
        ensures { result ≡ count_at self.now.header.bytes.now self.now.processor }
    {
        self.header.count_at(self.processor)
    }

    // The first byte of an instruction.
    fn byte_of(&self, index: u8) -> usize
        ensures { result ≡ instr_byte self.now.header.bytes.now self.now.processor index }
    {
        self.header.offset_at(self.processor) as usize + 4 * index as usize
    }

    // The instruction at an index, or the refusal of bytes that stand for none. Inlined into the check
    // and the reader: out of line, a card's check takes nearly twice the time.
    #[inline(always)]
    pub fn instr(&self, index: u8) -> Result<Instr, Refusal>
        requires { index < count_at self.now.header.bytes.now self.now.processor }
        ensures { result ≡ ok_or (decoded (instr_bytes self.now.header.bytes.now self.now.processor index)) Malformed }
    {
        let at = self.byte_of(index);
        Instr::try_from(&self.header.bytes[at..at + 4])
    }

    // Whether an instruction is one that stays in the thread.
    fn check_instr(&self, index: u8) -> Result<(), Fault>
        requires { index < count_at self.now.header.bytes.now self.now.processor }
        ensures { result_err result ≡ instr_fault self.now.header.bytes.now self.now.processor index }
    {
        match self.instr(index) {
            Ok(instr) if self.has_target(instr, index) => Ok(()),
            _ => Err(Layer::Card.refuses(Refusal::Malformed, self.byte_of(index))),
        }
    }

    // Whether control stays in the thread from an instruction: a branch may go as far as its end.
    fn has_target(&self, instr: Instr, index: u8) -> bool
        requires { index < count_at self.now.header.bytes.now self.now.processor }
        ensures { result ≡ nat_le (furthest index instr) (count_at self.now.header.bytes.now self.now.processor) }
    {
        match instr {
            Instr::Branch { skip, .. } => skip < self.len() - index,
            _other => true,
        }
    }

    // Whether every instruction is one that stays in the thread, or the first fault.
    pub fn check_instrs(&self) -> Result<(), Fault>
        ensures { result_err result ≡ instrs_fault self.now.header.bytes.now self.now.processor }
    {
        // by index: a rule of the format takes instructions by processor and index, and not by byte
        for index in 0..self.len() {
            self.check_instr(index)?;
        }
        Ok(())
    }
}
