// How a call is made: what it answers, and all that the machine holds then, is the port's outcome.
ghost use Rattle.port.specs.Calls.{Meets};
ghost use Rattle.machines.specs.Calls.{call_outcome};

use crate::answers::Answer;
use crate::calls::Call;
use model::Fault;
use port::Memory;

// Makes a call. The calls are data, so that they can be listed and printed: this is where each
// becomes the port's.
pub fn make<M: Memory>(machine: &mut M, call: Call) -> Result<Answer, Fault>
    ensures { Meets M.Memory.held M.Memory.settings (call_outcome (M.Memory.choice machine.old) (M.Memory.held machine.old) call) machine.old machine.new result }
{
    match call {
        Call::Newest { processor, address } => {
            Ok(Answer::Loaded(machine.newest(processor, address)?))
        }
        Call::Old {
            processor,
            address,
            serial,
        } => Ok(Answer::Loaded(machine.old(processor, address, serial)?)),
        Call::Put {
            processor,
            address,
            word,
            place,
        } => Ok(Answer::Taken(machine.put(processor, address, word, place)?)),
        Call::Landing { processor, address } => {
            Ok(Answer::Landed(machine.landing(processor, address)?))
        }
        Call::Commit { processor } => {
            machine.commit(processor)?;
            Ok(Answer::Done)
        }
        Call::Reconcile { processor } => {
            machine.reconcile(processor)?;
            Ok(Answer::Done)
        }
    }
}
