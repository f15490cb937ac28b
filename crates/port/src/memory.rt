// The calls of a machine.
ghost use Rattle.std.specs.Prelude.{◌≡◌, ℕ, List};
ghost use Rattle.port.specs.Calls.{Choice, Meets, newest_outcome, old_outcome, put_outcome, landing_outcome, reconcile_outcome, commit_answer, cell_answer, waiting_answer, copy_answer, counts_answer};
ghost use Rattle.port.specs.Holdings.{Held, nothing_yet, total};

use crate::stored::Stored;
use model::{Cell, Fault, Origin, StaleCopy, WaitingStore};

// A memory that four processors reach, with eight addresses. Each call does what its outcome says,
// by what the machine holds and what its kind chooses; a refused call leaves the whole value.
// Processor and address are numbers, since 4 and 7 refuse those that do not exist; and a landing
// answers its three numbers as a tuple, by a rule of the project: they go into a line of the order.
pub trait Memory {
    // What it holds now: cells by address, waiting stores and stale copies by processor.
    ghost held: { Self → Held };

    // What its kind is free to choose now.
    ghost choice: { Self → Choice };

    // Its kind's own settings, as numbers. No call changes them.
    ghost settings: { Self → List ℕ };

    // Loads the newest: the processor's youngest waiting store at the address, else the cell.
    // Then the processor holds no copy of the address.
    fn newest(&mut self, processor: u8, address: u8) -> Result<(u32, Origin), Fault>
        ensures { Meets held settings (newest_outcome (held self.old) processor address) self.old self.new result };

    // Loads the processor's copy with that serial. Then it loses its copies with smaller ones.
    fn old(&mut self, processor: u8, address: u8, serial: u8) -> Result<(u32, Origin), Fault>
        ensures { Meets held settings (old_outcome (choice self.old) (held self.old) processor address serial) self.old self.new result };

    // Stores a word, by the instruction at a place of the processor's thread. The processor loses
    // its copies of the address, and the store waits as its youngest or lands directly.
    fn put(&mut self, processor: u8, address: u8, word: u32, place: u8) -> Result<Stored, Fault>
        ensures { Meets held settings (put_outcome (choice self.old) (held self.old) processor address word place) self.old self.new result };

    // Lets the processor's oldest store that waits at the address reach memory, and answers word,
    // serial and origin as the cell now has them.
    fn landing(&mut self, processor: u8, address: u8) -> Result<(u32, u8, Origin), Fault>
        ensures { Meets held settings (landing_outcome (choice self.old) (held self.old) processor address) self.old self.new result };

    // The fence that waits for the processor's stores: it goes through once none waits.
    fn commit(&self, processor: u8) -> Result<(), Fault>
        ensures { result ≡ commit_answer (held self.now) processor };

    // The fence that lets go of the processor's copies.
    fn reconcile(&mut self, processor: u8) -> Result<(), Fault>
        ensures { Meets held settings (reconcile_outcome (held self.old) processor) self.old self.new result };

    // Makes the machine a new one.
    fn renew(&mut self)
        ensures held { held self.new ≡ nothing_yet }
        ensures settings { settings self.new ≡ settings self.old };

    // The cell of an address.
    fn cell(&self, address: u8) -> Result<Cell, Fault>
        ensures { result ≡ cell_answer (held self.now) address };

    // One of the processor's waiting stores, oldest first; none past their count.
    fn waiting(&self, processor: u8, index: usize) -> Result<Option<WaitingStore>, Fault>
        ensures { result ≡ waiting_answer (held self.now) processor index };

    // One of the processor's copies, oldest first; none past their count.
    fn copy(&self, processor: u8, index: usize) -> Result<Option<StaleCopy>, Fault>
        ensures { result ≡ copy_answer (held self.now) processor index };

    // How many stores of the processor wait, and how many copies it holds.
    fn counts(&self, processor: u8) -> Result<(usize, usize), Fault>
        ensures { result ≡ counts_answer (held self.now) processor };

    // How many stores the machine has taken since it was new: all serials and waiting stores.
    fn total(&self) -> usize
        ensures { result ≡ total (held self.now) };
}
