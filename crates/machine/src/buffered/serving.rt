// The calls of the port. Each says what the port asks of it, and that it is the published rule of
// its kind.
ghost use Rattle.std.specs.Prelude.{◌≡◌};
ghost use Rattle.kinds.specs.Kinds.{choice_of};
ghost use Rattle.kinds.specs.Agreement.{CommitAgrees, LandingAgrees, LoadAgrees, ReconcileAgrees, StaleLoadAgrees, StoreAgrees};
ghost use Rattle.port.specs.Calls.{Meets, commit_answer, landing_outcome, newest_outcome, old_outcome, put_outcome, reconcile_outcome};
ghost use Rattle.machine.specs.View.{held_of, unset};

use super::Buffered;
use crate::access::{on_core, on_map, refused};
use crate::parts::initial_cells;
use kinds::lands_directly;
use model::{Cell, Fault, Origin, Refusal, StaleCopy, WaitingStore};
use port::{Memory, Stored};

impl<const KIND: u8> Memory for Buffered<KIND> {
    ghost held = { λ m. held_of m };

    ghost choice = { λ m. choice_of KIND (held_of m) };

    ghost settings = { λ m. unset m };

    fn newest(&mut self, processor: u8, address: u8) -> Result<(u32, Origin), Fault>
        ensures meets { Meets held_of unset (newest_outcome (held_of self.old) processor address) self.old self.new result }
        ensures published { LoadAgrees KIND processor address (held_of self.old) (held_of self.new) result }
    {
        let access = on_map(processor, address)?;
        Ok(self.load_newest(access))
    }

    fn old(&mut self, processor: u8, address: u8, serial: u8) -> Result<(u32, Origin), Fault>
        ensures meets { Meets held_of unset (old_outcome (choice_of KIND (held_of self.old)) (held_of self.old) processor address serial) self.old self.new result }
        ensures published { StaleLoadAgrees KIND processor address (held_of self.old) (held_of self.new) result }
    {
        let access = on_map(processor, address)?;
        let Some(copy) = self.copy_of(access, serial) else {
            return Err(refused(Refusal::NoCopy, processor));
        };
        self.let_older_go(access, serial);
        Ok((copy.cell.word, copy.cell.origin))
    }

    fn put(&mut self, processor: u8, address: u8, word: u32, place: u8) -> Result<Stored, Fault>
        ensures meets { Meets held_of unset (put_outcome (choice_of KIND (held_of self.old)) (held_of self.old) processor address word place) self.old self.new result }
        ensures published { StoreAgrees KIND processor address word (held_of self.old) (held_of self.new) result }
    {
        let access = on_map(processor, address)?;
        if self.spent() {
            return Err(refused(Refusal::Spent, processor));
        }
        if lands_directly(KIND) {
            return Ok(Stored::Landed(self.put_through(access, word, place)));
        }
        self.put_behind(access, word, place);
        Ok(Stored::Waiting)
    }

    fn landing(&mut self, processor: u8, address: u8) -> Result<(u32, u8, Origin), Fault>
        ensures meets { Meets held_of unset (landing_outcome (choice_of KIND (held_of self.old)) (held_of self.old) processor address) self.old self.new result }
        ensures published { LandingAgrees KIND processor address (held_of self.old) (held_of self.new) result }
    {
        let access = on_map(processor, address)?;
        let Some(store) = self.oldest_at(access) else {
            return Err(refused(Refusal::NothingWaits, processor));
        };
        if self.held_back(access) {
            return Err(refused(Refusal::Held, processor));
        }
        Ok(self.land_oldest(access, store))
    }

    fn commit(&self, processor: u8) -> Result<(), Fault>
        ensures answer { result ≡ commit_answer (held_of self.now) processor }
        ensures published { CommitAgrees KIND processor (held_of self.now) result }
    {
        on_core(processor)?;
        if self.waits(processor) {
            return Err(refused(Refusal::Waits, processor));
        }
        Ok(())
    }

    fn reconcile(&mut self, processor: u8) -> Result<(), Fault>
        ensures meets { Meets held_of unset (reconcile_outcome (held_of self.old) processor) self.old self.new result }
        ensures published { ReconcileAgrees KIND processor (held_of self.old) (held_of self.new) result }
    {
        on_core(processor)?;
        self.let_all_go(processor);
        Ok(())
    }

    fn renew(&mut self) {
        self.processors.clear();
        self.cells = initial_cells();
    }

    fn cell(&self, address: u8) -> Result<Cell, Fault> {
        self.cells
            .get(address as usize)
            .copied()
            .ok_or_else(|| refused(Refusal::OffMap, 0))
    }

    fn waiting(&self, processor: u8, index: usize) -> Result<Option<WaitingStore>, Fault> {
        on_core(processor)?;
        Ok(self.waiting_of(processor).get(index).copied())
    }

    fn copy(&self, processor: u8, index: usize) -> Result<Option<StaleCopy>, Fault> {
        on_core(processor)?;
        Ok(self.copies_of(processor).get(index).copied())
    }

    fn counts(&self, processor: u8) -> Result<(usize, usize), Fault> {
        on_core(processor)?;
        Ok((
            self.waiting_of(processor).len(),
            self.copies_of(processor).len(),
        ))
    }

    fn total(&self) -> usize {
        self.taken()
    }
}
