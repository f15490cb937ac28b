// Port calls as values, and what they answer.
use model::{Fault, Refusal};
use port::{Memory, Stored};

// A call of the port: processor, address and then what else it takes. Short, for tables, and with
// the looks, so it is not the one that `machines` prints.
#[derive(Clone, Copy, PartialEq, Eq, Debug)]
pub enum Call {
    Newest(u8, u8),
    Old(u8, u8, u8),
    Put(u8, u8, u32, u8),
    Landing(u8, u8),
    Commit(u8),
    Reconcile(u8),
    Cell(u8),
    Waiting(u8, usize),
    Copy(u8, usize),
    Counts(u8),
}

// What a case looks at of an answer.
#[derive(Clone, Copy, PartialEq, Eq, Debug)]
pub enum Got {
    // the word of a load, a cell, a waiting store or a copy
    Word(u32),
    // the word and the serial of a store that landed
    Landed(u32, u8),
    // a store that waits
    Waits,
    // a fence that went through
    Done,
    // an index past a count
    Past,
    Counts(usize, usize),
}

// An answer, or a refusal and its place.
pub type Answer = Result<Got, (Refusal, usize)>;

// Makes the call.
pub fn make<M: Memory>(machine: &mut M, call: Call) -> Answer {
    perform(machine, call).map_err(|fault| (fault.refusal, fault.place))
}

// A case is a line of a table, so its call is data; beside the calls there are the looks.
fn perform<M: Memory>(machine: &mut M, call: Call) -> Result<Got, Fault> {
    Ok(match call {
        Call::Newest(processor, address) => Got::Word(machine.newest(processor, address)?.0),
        Call::Old(processor, address, serial) => {
            Got::Word(machine.old(processor, address, serial)?.0)
        }
        Call::Put(processor, address, word, place) => {
            match machine.put(processor, address, word, place)? {
                Stored::Waiting => Got::Waits,
                Stored::Landed((word, serial, _)) => Got::Landed(word, serial),
            }
        }
        Call::Landing(processor, address) => {
            let (word, serial, _) = machine.landing(processor, address)?;
            Got::Landed(word, serial)
        }
        Call::Commit(processor) => {
            machine.commit(processor)?;
            Got::Done
        }
        Call::Reconcile(processor) => {
            machine.reconcile(processor)?;
            Got::Done
        }
        Call::Cell(address) => Got::Word(machine.cell(address)?.word),
        Call::Waiting(processor, index) => machine
            .waiting(processor, index)?
            .map_or(Got::Past, |store| Got::Word(store.word)),
        Call::Copy(processor, index) => machine
            .copy(processor, index)?
            .map_or(Got::Past, |copy| Got::Word(copy.cell.word)),
        Call::Counts(processor) => {
            let (waiting, copies) = machine.counts(processor)?;
            Got::Counts(waiting, copies)
        }
    })
}
