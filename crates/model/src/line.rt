// A line of a memory order.
use crate::memory::Origin;

// What a line says was run: a load, a store, or one of the two fences.
#[derive(Clone, Copy, PartialEq, Eq, Debug)]
pub enum LineKind {
    Load,
    Store,
    Reconcile,
    Commit,
}

// One event of a memory order: the instruction at a place of a processor's thread, with its address
// and word. The source is the store that a load read; a line of another kind has the initial one,
// and a fence has address and word 0: one shape for all, as memory orders come in line by line.
#[derive(Clone, Copy, PartialEq, Eq, Debug)]
pub struct Line {
    pub kind: LineKind,
    pub processor: u8,
    pub place: u8,
    pub address: u8,
    pub word: u32,
    pub source: Origin,
}
