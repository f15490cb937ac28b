// Room in the port: a kind of machine that is none of the four, and a layer over any kind.
#![tactic(auto)]

mod eager;
mod passing;
mod uses;

pub use eager::Eager;
pub use passing::Passing;
pub use uses::{
    eager_is_published, is_published, keeps_store_order, layers_keep_store_order, on_each,
    on_layers, on_new, stored,
};
