// The moves of a sheet: how many there are, where each lies, and what it is.
ghost use Rattle.std.specs.Prelude.{◌≡◌, ◌+◌, ◌*◌, ◌<◌, ◌≤◌, length, ok_or, IfOk};
ghost use Rattle.std.specs.Result.{result_err};
ghost use Rattle.formats.specs.Checks.{first_of};
ghost use Rattle.formats.specs.Moves.{move_decoded};
ghost use Rattle.formats.specs.Sheets.{move_byte, move_bytes, move_fault, moves_in, start_fault};
ghost use Rattle.model.specs.declared.fault.Refusal.TheVariants.{Malformed};

use crate::moves::Move;
use model::{Fault, Kind, Layer, Refusal};

// Bytes with room for the moves that they count.
#[derive(Clone, Copy)]
pub struct Moves<'a> {
    pub bytes: &'a [u8],
    ghost whole: { 2 + 3 * moves_in bytes.now ≤ length bytes.now },
}

impl<'a> Moves<'a> {
    // The moves of bytes, or the first fault of the kind and of the room for the moves.
    pub fn new(bytes: &'a [u8]) -> Result<Moves<'a>, Fault>
        ensures fault { result_err result ≡ start_fault bytes.now }
        ensures same { IfOk result (λ moves. moves.bytes.now ≡ bytes.now) }
    {
        let &[kind, count, ..] = bytes else {
            return Err(Layer::Sheet.refuses(Refusal::Cut, bytes.len()));
        };
        Kind::try_from(kind).map_err(|refusal| Layer::Sheet.refuses(refusal, 0))?;
        if bytes.len() < byte_of(count) {
            return Err(Layer::Sheet.refuses(Refusal::Cut, bytes.len()));
        }
        Ok(Moves { bytes })
    }

    // How many moves there are.
    pub fn len(&self) -> u8
        ensures { result ≡ moves_in self.now.bytes.now }
    {
        self.bytes[1]
    }

    // The move at an index, or the refusal of bytes that stand for none.
    pub fn get(&self, index: u8) -> Result<Move, Refusal>
        requires { index < moves_in self.now.bytes.now }
        ensures { result ≡ ok_or (move_decoded (move_bytes self.now.bytes.now index)) Malformed }
    {
        let at = byte_of(index);
        Move::try_from(&self.bytes[at..at + 3])
    }

    // Whether there is a move at an index.
    fn check_move(&self, index: u8) -> Result<(), Fault>
        requires { index < moves_in self.now.bytes.now }
        ensures { result_err result ≡ move_fault self.now.bytes.now index }
    {
        self.get(index)
            .map_err(|refusal| Layer::Sheet.refuses(refusal, byte_of(index)))?;
        Ok(())
    }

    // Whether there is a move at every index, or the first fault.
    pub fn check(&self) -> Result<(), Fault>
        ensures { result_err result ≡ first_of (move_fault self.now.bytes.now) 0 (moves_in self.now.bytes.now) }
    {
        // by index: a fault names the byte of its move, which its index gives
        for index in 0..self.len() {
            self.check_move(index)?;
        }
        Ok(())
    }
}

// The first byte of a move; the moves end where one past the last would begin.
fn byte_of(index: u8) -> usize
    ensures { result ≡ move_byte index }
{
    2 + 3 * index as usize
}
