// How calls are played.
ghost use Rattle.std.specs.Prelude.{OnOk};
ghost use Rattle.machines.specs.Calls.{call_outcome};
ghost use Rattle.machines.specs.Played.{Leaves, Played};

use crate::calls::Call;
use crate::make::make;
use crate::show::write_held;
use model::Kind;
use port::{Memory, Port};
use std::fmt;

// Writes the kind of the machine, and plays the calls on it, one after the other.
pub fn play<M: Port>(text: &mut String, machine: &mut M, calls: &[Call]) -> fmt::Result
    ensures { OnOk result (Played M.Memory machine.old calls.now machine.new) }
{
    write_kind(text, M::NUMBER)?;
    for call in calls {
        play_one(text, machine, *call)?;
    }
    Ok(())
}

// The name of a kind, or its number, where it has no name, as a kind to come has none.
fn write_kind(text: &mut String, number: u8) -> fmt::Result {
    match Kind::try_from(number) {
        Ok(kind) => writeln!(text, "{kind}")?,
        Err(_) => writeln!(text, "kind {number}")?,
    }
    Ok(())
}

// Makes a call, and writes it with its answer and what the machine holds then.
fn play_one<M: Memory>(text: &mut String, machine: &mut M, call: Call) -> fmt::Result
    ensures { Leaves M.Memory (call_outcome (M.Memory.choice machine.old) (M.Memory.held machine.old) call) machine.old machine.new }
{
    match make(machine, call) {
        Ok(answer) => writeln!(text, "{call}: {answer}")?,
        Err(fault) => writeln!(text, "{call}: {fault}")?,
    }
    write_held(text, machine)
}
