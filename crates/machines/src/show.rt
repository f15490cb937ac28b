// What a machine holds, in plain text.
ghost use Rattle.std.specs.Prelude.{◌≡◌, ◌<◌, length, Some};
ghost use Rattle.std.specs.List.{slice_get};

use model::{StaleCopy, WaitingStore};
use port::Memory;
use std::fmt;

// One of the four processors, of which the looking calls refuse nothing. Never compared.
#[derive(Clone, Copy)]
struct Processor {
    number: u8,
    ghost within: { number < 4 },
}

// Writes the cells of addresses 0 and 1, and every buffer that is not empty.
pub fn write_held<M: Memory>(text: &mut String, machine: &M) -> fmt::Result {
    let first = machine.cell(0).unwrap();
    let second = machine.cell(1).unwrap();
    writeln!(
        text,
        "  memory {} serial {}, {} serial {}",
        first.word, first.serial, second.word, second.serial
    )?;
    // the port names processors by number
    for number in 0..4 {
        write_waiting(text, machine, Processor { number })?;
    }
    for number in 0..4 {
        write_copies(text, machine, Processor { number })?;
    }
    Ok(())
}

// A line of the processor's waiting stores, oldest first, if it has any. The port shows a buffer
// item by item, so the loop counts.
fn write_waiting<M: Memory>(text: &mut String, machine: &M, processor: Processor) -> fmt::Result {
    let (count, _) = counts(machine, processor);
    if count == 0 {
        return Ok(());
    }
    write!(text, "  waiting {}:", processor.number)?;
    for index in 0..count {
        let store = waiting(machine, processor, index);
        write!(text, " [{}]={}", store.address, store.word)?;
    }
    writeln!(text)?;
    Ok(())
}

// The same of its copies. The two lines share their frame alone, so they are two functions: one over
// closures, which may be called below a count only, would be longer than both.
fn write_copies<M: Memory>(text: &mut String, machine: &M, processor: Processor) -> fmt::Result {
    let (_, count) = counts(machine, processor);
    if count == 0 {
        return Ok(());
    }
    write!(text, "  copies {}:", processor.number)?;
    for index in 0..count {
        let copy = copy(machine, processor, index);
        write!(
            text,
            " [{}]={} serial {}",
            copy.address, copy.cell.word, copy.cell.serial
        )?;
    }
    writeln!(text)?;
    Ok(())
}

// The looking calls, one for each, where they refuse nothing.

fn counts<M: Memory>(machine: &M, processor: Processor) -> (usize, usize)
    ensures waiting { result.0 ≡ length ((M.Memory.held machine.now).waits processor.number) }
    ensures copies { result.1 ≡ length ((M.Memory.held machine.now).copies processor.number) }
{
    machine.counts(processor.number).unwrap()
}

fn waiting<M: Memory>(machine: &M, processor: Processor, index: usize) -> WaitingStore
    requires { index < length ((M.Memory.held machine.now).waits processor.number) }
    ensures { slice_get ((M.Memory.held machine.now).waits processor.number) index ≡ Some result }
{
    machine.waiting(processor.number, index).unwrap().unwrap()
}

fn copy<M: Memory>(machine: &M, processor: Processor, index: usize) -> StaleCopy
    requires { index < length ((M.Memory.held machine.now).copies processor.number) }
    ensures { slice_get ((M.Memory.held machine.now).copies processor.number) index ≡ Some result }
{
    machine.copy(processor.number, index).unwrap().unwrap()
}
