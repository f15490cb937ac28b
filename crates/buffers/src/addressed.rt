// Records that carry an address, and those that carry a serial too.
ghost use Rattle.std.specs.Prelude.{◌≡◌, ℕ};

use model::{StaleCopy, WaitingStore};

// A record that carries an address.
pub trait Addressed {
    ghost location: { Self → ℕ };

    fn address(&self) -> u8
        ensures { result ≡ location self.now };
}

// A record that carries a serial too.
pub trait Versioned: Addressed {
    ghost version: { Self → ℕ };

    fn serial(&self) -> u8
        ensures { result ≡ version self.now };
}

impl Addressed for WaitingStore {
    ghost location = { λ s. s.address };

    fn address(&self) -> u8 {
        self.address
    }
}

impl Addressed for StaleCopy {
    ghost location = { λ c. c.address };

    fn address(&self) -> u8 {
        self.address
    }
}

impl Versioned for StaleCopy {
    ghost version = { λ c. c.cell.serial };

    fn serial(&self) -> u8 {
        self.cell.serial
    }
}
