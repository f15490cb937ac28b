// What a sheet says: the schedule that its bytes stand for.
ghost use Rattle.std.specs.Prelude.{◌≡◌, length};
ghost use Rattle.std.specs.List.{slice_get};
ghost use Rattle.formats.specs.Schedules.{schedule_of};

use crate::moves::Move;
use crate::sheet::Sheet;
use crate::sheet::moves::Moves;
use model::Kind;

impl<'a> Sheet<'a> {
    // The kind of machine to play on.
    pub fn kind(&self) -> Kind
        ensures { result ≡ (schedule_of self.now).kind }
    {
        Kind::try_from(self.bytes[0]).unwrap()
    }

    // How many moves there are.
    pub fn len(&self) -> u8
        ensures { result ≡ length (schedule_of self.now).moves }
    {
        self.moves().len()
    }

    // A move, or none past the last.
    pub fn get(&self, index: u8) -> Option<Move>
        ensures { result ≡ slice_get (schedule_of self.now).moves index }
    {
        if index >= self.len() {
            return None;
        }
        self.moves().get(index).ok()
    }

    fn moves(&self) -> Moves<'a>
        ensures { result.bytes.now ≡ self.now.bytes.now }
    {
        Moves { bytes: self.bytes }
    }
}
