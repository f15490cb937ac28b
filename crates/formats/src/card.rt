// Cards: litmus programs as bytes.
ghost use Rattle.std.specs.Prelude.{IsNone};
ghost use Rattle.formats.specs.Cards.{card_fault};

mod check;
mod header;
mod read;
mod show;
mod thread;

// A litmus program, read from the caller's bytes. No card exists over bytes that break a rule.
#[derive(Clone, Copy, PartialEq, Eq, Debug)]
pub struct Card<'a> {
    bytes: &'a [u8],
    ghost ok: { IsNone (card_fault bytes.now) },
}
