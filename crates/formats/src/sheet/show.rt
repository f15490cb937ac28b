// A sheet in plain text.
ghost use Rattle.std.specs.Fmt.{DisplaysOnOk};
ghost use Rattle.std.specs.Prelude.{Some};
ghost use Rattle.formats.specs.Listings.{schedule_text, schedule_title};
ghost use Rattle.formats.specs.Schedules.{schedule_of};

use crate::numbered::write_numbered;
use crate::sheet::Sheet;
use model::Kind;
use std::fmt;

impl fmt::Display for Sheet<'_> {
    ghost output = { λ sheet. Some (schedule_text (schedule_of sheet)) };

    fn fmt<W: fmt::Write>(&self, f: &mut fmt::Formatter<W>) -> fmt::Result {
        write_title(f, self.kind(), self.len())?;
        write_numbered(f, self.len(), |index| self.get(index))
    }
}

fn write_title<W: fmt::Write>(f: &mut fmt::Formatter<W>, kind: Kind, count: u8) -> fmt::Result
    ensures { DisplaysOnOk W.Write.write_str_gives f.old result (Some (schedule_title kind count)) f.new }
{
    writeln!(f, "kind {kind} moves {count}")
}
