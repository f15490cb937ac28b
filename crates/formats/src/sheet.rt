// Sheets: lists of moves as bytes.
ghost use Rattle.std.specs.Prelude.{IsNone};
ghost use Rattle.formats.specs.Sheets.{sheet_fault};

mod check;
mod moves;
mod read;
mod show;

// A kind of machine and moves to make on it, read from the caller's bytes. No sheet exists over
// bytes that break a rule.
#[derive(Clone, Copy, PartialEq, Eq, Debug)]
pub struct Sheet<'a> {
    bytes: &'a [u8],
    ghost ok: { IsNone (sheet_fault bytes.now) },
}
