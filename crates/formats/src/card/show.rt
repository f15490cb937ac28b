// A card in plain text.
ghost use Rattle.std.specs.Fmt.{DisplaysOnOk};
ghost use Rattle.std.specs.Prelude.{Some};
ghost use Rattle.formats.specs.Listings.{program_text, program_title, thread_text, threads_text};
ghost use Rattle.formats.specs.Programs.{program_of};

use crate::card::Card;
use crate::numbered::write_numbered;
use std::fmt;

impl fmt::Display for Card<'_> {
    ghost output = { λ card. Some (program_text (program_of card)) };

    fn fmt<W: fmt::Write>(&self, f: &mut fmt::Formatter<W>) -> fmt::Result {
        write_title(f, self.processors(), self.addresses())?;
        write_threads(self, f)
    }
}

fn write_title<W: fmt::Write>(
    f: &mut fmt::Formatter<W>,
    processors: u8,
    addresses: u8,
) -> fmt::Result
    ensures { DisplaysOnOk W.Write.write_str_gives f.old result (Some (program_title processors addresses)) f.new }
{
    writeln!(f, "processors {processors} addresses {addresses}")
}

// Every thread, one after the other.
fn write_threads<W: fmt::Write>(card: &Card<'_>, f: &mut fmt::Formatter<W>) -> fmt::Result
    ensures { DisplaysOnOk W.Write.write_str_gives f.old result (Some (threads_text (program_of card.now) (program_of card.now).processors)) f.new }
{
    // by number: it is what the card answers by, and what the title says
    for processor in 0..card.processors() {
        write_thread(card, processor, f)?;
    }
    Ok(())
}

// A thread, with its title.
fn write_thread<W: fmt::Write>(
    card: &Card<'_>,
    processor: u8,
    f: &mut fmt::Formatter<W>,
) -> fmt::Result
    ensures { DisplaysOnOk W.Write.write_str_gives f.old result (Some (thread_text (program_of card.now) processor)) f.new }
{
    writeln!(f, "thread {processor}")?;
    write_numbered(
        f,
        card.thread_len(processor),
        |place| card.instr(processor, place),
    )
}
