// What a card says: the program that its bytes stand for.
ghost use Rattle.std.specs.Prelude.{◌≡◌, ◌≤◌, length, IfNone, IfSome};
ghost use Rattle.std.specs.List.{slice_get};
ghost use Rattle.formats.specs.Cards.{processors_in};
ghost use Rattle.formats.specs.Programs.{Runs, program_of};

use crate::card::Card;
use crate::card::header::Header;
use crate::card::thread::Thread;
use isa::Instr;

impl<'a> Card<'a> {
    // How many processors the program has: 1 to 4.
    pub fn processors(&self) -> u8
        ensures value { result ≡ (program_of self.now).processors }
        ensures range { (1 ≤ result) × (result ≤ 4) }
    {
        self.bytes[0]
    }

    // How many addresses the program has: 1 to 8.
    pub fn addresses(&self) -> u8
        ensures value { result ≡ (program_of self.now).addresses }
        ensures range { (1 ≤ result) × (result ≤ 8) }
    {
        self.bytes[1]
    }

    // How many instructions a processor's thread has: at most 16.
    pub fn thread_len(&self, processor: u8) -> u8
        ensures value { result ≡ length ((program_of self.now).thread processor) }
        ensures bound { result ≤ 16 }
    {
        match self.thread(processor) {
            Some(thread) => thread.len(),
            None => 0,
        }
    }

    // An instruction of a processor's thread, or none past its end.
    pub fn instr(&self, processor: u8, place: u8) -> Option<Instr>
        ensures value { result ≡ slice_get ((program_of self.now).thread processor) place }
        ensures runs { Runs (length ((program_of self.now).thread processor)) place result }
    {
        let thread = self.thread(processor)?;
        if place >= thread.len() {
            return None;
        }
        thread.instr(place).ok()
    }

    // The thread of a processor, or none if the program has no such processor.
    fn thread(&self, processor: u8) -> Option<Thread<'a>>
        ensures none { IfNone result (processors_in self.now.bytes.now ≤ processor) }
        ensures some { IfSome result (λ thread. (thread.header.bytes.now ≡ self.now.bytes.now) × (thread.processor ≡ processor)) }
    {
        if processor >= self.processors() {
            return None;
        }
        let header = Header { bytes: self.bytes };
        Some(Thread { header, processor })
    }
}
