// The four published kinds of machine: what tells them apart, and their rules.
#![tactic(auto)]

mod behaviour;
mod tables;

pub use behaviour::{keeps_copies, lands_directly, lands_in_order};
pub use tables::{PSO_TABLE, SC_TABLE, TSO_TABLE, WMM_TABLE};
