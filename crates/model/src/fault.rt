// How a call refuses: a number with its word, the layer that refused, and the place.
ghost use Rattle.std.specs.Prelude.{◌≡◌, Some};
ghost use Rattle.model.specs.Faults.{fault_text, layer_name, refusal_number, refusal_word, refused};

use std::error::Error;
use std::fmt;

// Why a call refuses. docs/REFUSALS.md has the whole table.
#[derive(Clone, Copy, PartialEq, Eq, Debug)]
pub enum Refusal {
    // the bytes end too early, or an offset points outside them
    Cut = 1,
    // a count or a kind is out of range
    Count = 2,
    // an instruction or a move is none
    Malformed = 3,
    // there is no such processor
    NoCore = 4,
    // the processor is at the end of its thread
    Ended = 5,
    // an old load was asked for, and the next instruction is no load
    Misfit = 6,
    // there is no such address
    OffMap = 7,
    // no store of the processor waits at the address
    NothingWaits = 8,
    // a store of the processor waits
    Waits = 9,
    // the processor holds no such copy
    NoCopy = 10,
    // the kind of machine does not allow it now
    Held = 11,
    // the machine has taken all the stores that it can
    Spent = 12,
    // a thread is not at its end, or a store waits
    Unfinished = 13,
    // the ticket fits no run here
    Foreign = 14,
    // a run is open
    Occupied = 15,
    // a line does not fit the thread that it is of
    Thread = 16,
    // a line was not run, or stands twice
    Stray = 17,
    // two lines stand against the ordering table
    Order = 18,
    // a load did not read the store that it names, or another word
    Value = 19,
}

// The number of the refusal table.
impl From<Refusal> for u8 {
    ghost from_gives = { λ refusal number. number ≡ refusal_number refusal };

    fn from(refusal: Refusal) -> u8 {
        refusal as u8
    }
}

impl Refusal {
    // The word of the refusal table.
    pub fn word(self) -> &'static str
        ensures { result.now ≡ refusal_word self }
    {
        match self {
            Refusal::Cut => "cut",
            Refusal::Count => "count",
            Refusal::Malformed => "malformed",
            Refusal::NoCore => "no core",
            Refusal::Ended => "ended",
            Refusal::Misfit => "misfit",
            Refusal::OffMap => "off map",
            Refusal::NothingWaits => "nothing waits",
            Refusal::Waits => "waits",
            Refusal::NoCopy => "no copy",
            Refusal::Held => "held",
            Refusal::Spent => "spent",
            Refusal::Unfinished => "unfinished",
            Refusal::Foreign => "foreign",
            Refusal::Occupied => "occupied",
            Refusal::Thread => "thread",
            Refusal::Stray => "stray",
            Refusal::Order => "order",
            Refusal::Value => "value",
        }
    }
}

// Its word in print.
impl fmt::Display for Refusal {
    ghost output = { λ refusal. Some (refusal_word refusal) };

    fn fmt<W: fmt::Write>(&self, f: &mut fmt::Formatter<W>) -> fmt::Result {
        f.pad(self.word())
    }
}

impl Error for Refusal {}

// The part of the system that refuses.
#[derive(Clone, Copy, PartialEq, Eq, Debug)]
pub enum Layer {
    Card,
    Sheet,
    Machine,
    Bench,
    Judge,
}

impl Layer {
    // The fault with which the layer refuses, at a place.
    pub fn refuses(self, refusal: Refusal, place: usize) -> Fault
        ensures { result ≡ refused self refusal place }
    {
        Fault {
            refusal,
            layer: self,
            place,
        }
    }
}

impl fmt::Display for Layer {
    ghost output = { λ layer. Some (layer_name layer) };

    fn fmt<W: fmt::Write>(&self, f: &mut fmt::Formatter<W>) -> fmt::Result {
        f.pad(match self {
            Layer::Card => "card",
            Layer::Sheet => "sheet",
            Layer::Machine => "machine",
            Layer::Bench => "bench",
            Layer::Judge => "judge",
        })
    }
}

// A refusal, by the layer that gave it and the place that it names: a byte, a length, a processor
// or a line, as docs/REFUSALS.md says of each.
#[derive(Clone, Copy, PartialEq, Eq, Debug)]
pub struct Fault {
    pub refusal: Refusal,
    pub layer: Layer,
    pub place: usize,
}

impl fmt::Display for Fault {
    ghost output = { λ fault. Some (fault_text fault) };

    fn fmt<W: fmt::Write>(&self, f: &mut fmt::Formatter<W>) -> fmt::Result {
        let number = u8::from(self.refusal);
        let layer = self.layer;
        let place = self.place;
        write!(f, "refused {number} {layer} {place}")
    }
}

impl Error for Fault {}
