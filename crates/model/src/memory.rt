// What a memory of a machine holds.
ghost use Rattle.std.specs.Prelude.{◌≡◌, Some};
ghost use Rattle.model.specs.Memory.{initial_cell, origin_text};

use std::fmt;

// Which store wrote a word: the instruction at a place of a processor's thread, or none, where the
// word is the one that memory began with. That is a source of its own with a name in print, so the
// variants are named, and it is no Option.
#[derive(Clone, Copy, PartialEq, Eq, Debug)]
pub enum Origin {
    Initial,
    Store { processor: u8, place: u8 },
}

impl fmt::Display for Origin {
    ghost output = { λ origin. Some (origin_text origin) };

    fn fmt<W: fmt::Write>(&self, f: &mut fmt::Formatter<W>) -> fmt::Result {
        match *self {
            Origin::Initial => f.pad("init"),
            Origin::Store { processor, place } => write!(f, "{processor}.{place}"),
        }
    }
}

// What stands at an address now. The serial is the count of stores that have landed there.
#[derive(Clone, Copy, PartialEq, Eq, Debug)]
pub struct Cell {
    pub word: u32,
    pub serial: u8,
    pub origin: Origin,
}

impl Cell {
    // The cell of every address of a new machine. By name, and no `Default`: its word is to be chosen.
    pub fn initial() -> Cell
        ensures { result ≡ initial_cell }
    {
        Cell {
            word: 0,
            serial: 0,
            origin: Origin::Initial,
        }
    }
}

// A store that a processor has run and that has not landed in memory yet: an entry of its store
// buffer.
#[derive(Clone, Copy, PartialEq, Eq, Debug)]
pub struct WaitingStore {
    pub address: u8,
    pub word: u32,
    pub origin: Origin,
}

// An overwritten cell that a processor may still read: an entry of its invalidation buffer.
#[derive(Clone, Copy, PartialEq, Eq, Debug)]
pub struct StaleCopy {
    pub address: u8,
    pub cell: Cell,
}
