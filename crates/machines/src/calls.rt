// The calls to play.
ghost use Rattle.std.specs.Prelude.{Some};
ghost use Rattle.machines.specs.Texts.{call_text};

use std::fmt;

// A call of the port. It is printed, so its fields have names; the tests have a short one of their
// own, with the looks.
#[derive(Clone, Copy, PartialEq, Eq, Debug)]
pub enum Call {
    Newest {
        processor: u8,
        address: u8,
    },
    Old {
        processor: u8,
        address: u8,
        serial: u8,
    },
    Put {
        processor: u8,
        address: u8,
        word: u32,
        place: u8,
    },
    Landing {
        processor: u8,
        address: u8,
    },
    Commit {
        processor: u8,
    },
    Reconcile {
        processor: u8,
    },
}

// Message passing: processor 0 stores a word at address 0 and then a flag at address 1, and
// processor 1 reads the flag and then the word.
pub const MESSAGE_PASSING: [Call; 11] = [
    Call::Put {
        processor: 0,
        address: 0,
        word: 1,
        place: 1,
    },
    Call::Put {
        processor: 0,
        address: 1,
        word: 1,
        place: 2,
    },
    // the flag is to land first
    Call::Landing {
        processor: 0,
        address: 1,
    },
    Call::Landing {
        processor: 0,
        address: 0,
    },
    Call::Landing {
        processor: 0,
        address: 1,
    },
    // the flag is up, and the word may still be the old one
    Call::Newest {
        processor: 1,
        address: 1,
    },
    Call::Old {
        processor: 1,
        address: 0,
        serial: 0,
    },
    // with both fences it is the new one
    Call::Commit { processor: 0 },
    Call::Reconcile { processor: 1 },
    Call::Old {
        processor: 1,
        address: 0,
        serial: 0,
    },
    Call::Newest {
        processor: 1,
        address: 0,
    },
];

impl fmt::Display for Call {
    ghost output = { λ call. Some (call_text call) };

    fn fmt<W: fmt::Write>(&self, f: &mut fmt::Formatter<W>) -> fmt::Result {
        match *self {
            Call::Newest { processor, address } => write!(
                f,
                "newest {processor} address {address}"
            ),
            Call::Old {
                processor,
                address,
                serial,
            } => write!(f, "old {processor} address {address} serial {serial}"),
            Call::Put {
                processor,
                address,
                word,
                ..
            } => write!(f, "put {processor} address {address} word {word}"),
            Call::Landing { processor, address } => write!(
                f,
                "landing {processor} address {address}"
            ),
            Call::Commit { processor } => write!(f, "commit {processor}"),
            Call::Reconcile { processor } => write!(f, "reconcile {processor}"),
        }
    }
}
