// The header of a card: how many processors and addresses there are, and where each thread lies.
ghost use Rattle.std.specs.Prelude.{◌≡◌, ◌+◌, ◌*◌, ◌<◌, ◌≤◌, length, IfOk};
ghost use Rattle.std.specs.Result.{result_err};
ghost use Rattle.formats.specs.Cards.{count_at, header_fault, header_length, offset_at, processors_in, thread_fault};
ghost use Rattle.formats.specs.Checks.{first_of};

use model::{Fault, Layer, Refusal};

// Bytes whose header is whole. Nothing compares or prints it, nor `Thread` and `Moves`, so all three
// derive `Clone` and `Copy` alone.
#[derive(Clone, Copy)]
pub struct Header<'a> {
    pub bytes: &'a [u8],
    ghost whole: { header_length bytes.now ≤ length bytes.now },
}

impl<'a> Header<'a> {
    // The header of bytes, or the first fault of its counts and of the room for it.
    pub fn new(bytes: &'a [u8]) -> Result<Header<'a>, Fault>
        ensures fault { result_err result ≡ header_fault bytes.now }
        ensures same { IfOk result (λ header. header.bytes.now ≡ bytes.now) }
    {
        let &[processors, addresses, ..] = bytes else {
            return Err(Layer::Card.refuses(Refusal::Cut, bytes.len()));
        };
        if !(1..=4).contains(&processors) {
            return Err(Layer::Card.refuses(Refusal::Count, 0));
        }
        if !(1..=8).contains(&addresses) {
            return Err(Layer::Card.refuses(Refusal::Count, 1));
        }
        if bytes.len() < entry_of(processors) {
            return Err(Layer::Card.refuses(Refusal::Cut, bytes.len()));
        }
        Ok(Header { bytes })
    }

    // How many processors the program has.
    pub fn processors(&self) -> u8
        ensures { result ≡ processors_in self.now.bytes.now }
    {
        self.bytes[0]
    }

    // How many instructions a processor's thread has. That the header names the processor is asked
    // here and in the next two: a type for it would be `Thread` again, without its room.
    pub fn count_at(&self, processor: u8) -> u8
        requires { processor < processors_in self.now.bytes.now }
        ensures { result ≡ count_at self.now.bytes.now processor }
    {
        self.bytes[entry_of(processor)]
    }

    // The byte at which a processor's thread begins.
    pub fn offset_at(&self, processor: u8) -> u8
        requires { processor < processors_in self.now.bytes.now }
        ensures { result ≡ offset_at self.now.bytes.now processor }
    {
        self.bytes[entry_of(processor) + 1]
    }

    // Whether the count of instructions of a processor's thread is in range, and there is room for
    // them behind the header.
    fn check_thread(&self, processor: u8) -> Result<(), Fault>
        requires { processor < processors_in self.now.bytes.now }
        ensures { result_err result ≡ thread_fault self.now.bytes.now processor }
    {
        let count = self.count_at(processor) as usize;
        if count > 16 {
            return Err(Layer::Card.refuses(Refusal::Count, entry_of(processor)));
        }
        let header = entry_of(self.processors());
        let offset = self.offset_at(processor) as usize;
        if offset < header || offset + 4 * count > self.bytes.len() {
            return Err(Layer::Card.refuses(Refusal::Cut, self.bytes.len()));
        }
        Ok(())
    }

    // Whether every thread has a count in range and room, or the first fault.
    pub fn check_threads(&self) -> Result<(), Fault>
        ensures { result_err result ≡ first_of (thread_fault self.now.bytes.now) 0 (processors_in self.now.bytes.now) }
    {
        // by number: a fault names the entry's byte; try_for_each over the numbers says no more
        for processor in 0..self.processors() {
            self.check_thread(processor)?;
        }
        Ok(())
    }
}

// The byte of a thread's count, which its offset follows; the header ends where the thread past the
// last would have them.
fn entry_of(processor: u8) -> usize
    ensures { result ≡ 2 + 2 * processor }
{
    2 + 2 * processor as usize
}
