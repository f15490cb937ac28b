// What can be done with the buffers.
ghost use Rattle.std.specs.Prelude.{◌≡◌, [], ◌∷◌, ◌++◌, IfOk, if◌then◌else◌, Ok, Err};
ghost use Rattle.model.specs.Lists.{upd, oldest, without_oldest, without};
ghost use Rattle.buffers.specs.View.{buffer_of, has_room};

use super::Buffers;
use crate::query::Query;
use crate::search;
use std::alloc::{AllocError, Global};

// How many a buffer holds at most.
const ROOM: usize = 64;

impl<T> Buffers<T> {
    // Empty buffers.
    pub fn new(heap: Global) -> Result<Buffers<T>, AllocError>
    where
        T: Drop,
        ensures { IfOk result (λ b. buffer_of b ≡ (λ p. [])) }
    {
        let empty = || Vec::with_capacity(heap, ROOM);
        let buffers = [empty()?, empty()?, empty()?, empty()?];
        Ok(Buffers { buffers })
    }

    // A processor's buffer, oldest first; past the fourth, an empty one.
    pub fn of(&self, processor: u8) -> &[T]
        ensures { result.now ≡ buffer_of self.now processor }
    {
        match self.buffers.get(processor as usize) {
            Some(buffer) => buffer.as_slice(),
            None => &[],
        }
    }

    // The item comes last in a processor's buffer, or back to the caller where there is no room.
    pub fn push(&mut self, processor: u8, item: T) -> Result<(), T>
        ensures value { result ≡ (if has_room self.old processor then Ok tt else Err item) }
        ensures after { buffer_of self.new ≡ (if has_room self.old processor then upd (buffer_of self.old) processor (buffer_of self.old processor ++ item ∷ []) else buffer_of self.old) }
    {
        if self.has_room(processor) {
            self.buffers[processor as usize].push_reserved(item);
            Ok(())
        } else {
            Err(item)
        }
    }

    // Whether a processor's buffer takes one more.
    fn has_room(&self, processor: u8) -> bool
        ensures { result ≡ has_room self.now processor }
    {
        processor < 4 && self.of(processor).len() < ROOM
    }

    // The oldest that the query picks goes out of a processor's buffer.
    pub fn remove_oldest<Q: Query<T>>(&mut self, processor: u8, query: &Q) -> Option<T>
        ensures value { result ≡ oldest (Q.picks query.now) (buffer_of self.old processor) }
        ensures after { buffer_of self.new ≡ upd (buffer_of self.old) processor (without_oldest (Q.picks query.now) (buffer_of self.old processor)) }
    {
        // By index, here and below: std says nothing of an array's elements after `get_mut`.
        let at = processor as usize;
        if at < self.buffers.len() {
            search::remove_oldest(&mut self.buffers[at], query)
        } else {
            None
        }
    }

    // All that the query picks go out of a processor's buffer.
    pub fn remove_all<Q: Query<T>>(&mut self, processor: u8, query: &Q)
    where
        T: Drop,
        ensures { buffer_of self.new ≡ upd (buffer_of self.old) processor (without (Q.picks query.now) (buffer_of self.old processor)) }
    {
        let at = processor as usize;
        if at < self.buffers.len() {
            search::remove_all(&mut self.buffers[at], query);
        }
    }

    // Empties a processor's buffer.
    pub fn clear(&mut self, processor: u8)
    where
        T: Drop,
        ensures { buffer_of self.new ≡ upd (buffer_of self.old) processor [] }
    {
        let at = processor as usize;
        if at < self.buffers.len() {
            self.buffers[at].clear();
        }
    }

    // Empties every buffer.
    pub fn clear_all(&mut self)
    where
        T: Drop,
        ensures { buffer_of self.new ≡ (λ p. []) }
    {
        for buffer in &mut self.buffers {
            buffer.clear();
        }
    }
}
