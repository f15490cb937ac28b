// The plain values that every other crate speaks of: what a memory holds, what stands in a memory
// order, what an ordering table asks, which kinds of machine there are, and how a call refuses.
#![tactic(auto)]

mod fault;
mod kind;
mod line;
mod memory;
mod order;

pub use fault::{Fault, Layer, Refusal};
pub use kind::Kind;
pub use line::{Line, LineKind};
pub use memory::{Cell, Origin, StaleCopy, WaitingStore};
pub use order::{Order, PerLineKind, Row, Table};
