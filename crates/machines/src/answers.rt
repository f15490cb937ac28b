// What the calls answer.
ghost use Rattle.std.specs.Prelude.{Some};
ghost use Rattle.machines.specs.Texts.{answer_text};

use model::Origin;
use port::Stored;
use std::fmt;

// What a call answers: what the port gives, and of a fence that it went through.
#[derive(Clone, Copy, PartialEq, Eq, Debug)]
pub enum Answer {
    Loaded((u32, Origin)),
    Taken(Stored),
    Landed((u32, u8, Origin)),
    Done,
}

impl fmt::Display for Answer {
    ghost output = { λ answer. Some (answer_text answer) };

    fn fmt<W: fmt::Write>(&self, f: &mut fmt::Formatter<W>) -> fmt::Result {
        match *self {
            Answer::Loaded((word, origin)) => write!(f, "word {word} from {origin}"),
            Answer::Taken(Stored::Waiting) => f.pad("waits"),
            Answer::Taken(Stored::Landed((_, serial, _))) => write!(f, "landed serial {serial}"),
            Answer::Landed((word, serial, origin)) => {
                write!(f, "word {word} serial {serial} from {origin}")
            }
            Answer::Done => f.pad("done"),
        }
    }
}
