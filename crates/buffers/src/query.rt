// Queries: which records a search looks for.
ghost use Rattle.std.specs.Prelude.{◌≡◌, Bool, ◌&&◌, ◌==◌, nat_lt};

use crate::addressed::{Addressed, Versioned};

// A question that a record answers with yes or no. It is a trait, since a closure `Fn(&T) -> bool`
// would need a `requires` on the search, and `picks` gives contracts the test as a function.
pub trait Query<T> {
    ghost picks: { Self → T → Bool };

    fn hits(&self, item: &T) -> bool
        ensures { result ≡ picks self.now item.now };
}

// The records at an address.
#[derive(Clone, Copy, PartialEq, Eq, Debug)]
pub struct At {
    pub address: u8,
}

// The records at an address whose serial is smaller.
#[derive(Clone, Copy, PartialEq, Eq, Debug)]
pub struct Older {
    pub address: u8,
    pub serial: u8,
}

// The records at an address that have this serial.
#[derive(Clone, Copy, PartialEq, Eq, Debug)]
pub struct Exact {
    pub address: u8,
    pub serial: u8,
}

impl<T: Addressed> Query<T> for At {
    ghost picks = { λ q x. (T.Addressed.location x == q.address) };

    fn hits(&self, item: &T) -> bool {
        self.address == item.address()
    }
}

impl<T: Versioned> Query<T> for Older {
    ghost picks = { λ q x. (T.Addressed.location x == q.address) && nat_lt (T.Versioned.version x) q.serial };

    fn hits(&self, item: &T) -> bool {
        item.address() == self.address && item.serial() < self.serial
    }
}

impl<T: Versioned> Query<T> for Exact {
    ghost picks = { λ q x. (T.Addressed.location x == q.address) && T.Versioned.version x == q.serial };

    fn hits(&self, item: &T) -> bool {
        item.address() == self.address && item.serial() == self.serial
    }
}
