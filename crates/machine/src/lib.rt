// The four machines behind the port, over one implementation.
#![tactic(auto)]

mod access;
mod buffered;
mod four;
mod parts;
mod processors;

pub use buffered::Buffered;
pub use four::{Pso, Sc, Tso, Wmm};
