// The instructions of litmus programs: their four bytes, their text, and the addresses they reach.
#![tactic(auto)]

mod addressing;
mod fields;
mod instr;

pub use addressing::address;
pub use instr::Instr;
