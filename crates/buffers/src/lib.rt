// Records that carry an address, oldest first: searches and removals, and a buffer of them for each
// processor.
#![tactic(auto)]

mod addressed;
mod buffers;
mod query;
mod search;

pub use addressed::{Addressed, Versioned};
pub use buffers::Buffers;
pub use query::{At, Exact, Older, Query};
pub use search::{any, oldest, remove_all, remove_oldest, youngest};
