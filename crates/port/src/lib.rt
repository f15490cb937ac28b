// The port: one interface that reaches every machine, today's and those to come.
#![tactic(auto)]

mod fresh;
mod memory;
mod port;
mod stored;

pub use fresh::Fresh;
pub use memory::Memory;
pub use port::Port;
pub use stored::Stored;
