// Plays one list of calls on each of the four machines, and prints what each holds after every call.
#![tactic(auto)]

mod answers;
mod calls;
mod make;
mod play;
mod show;

use calls::MESSAGE_PASSING;
use machine::{Pso, Sc, Tso, Wmm};
use play::play;

fn main(rt: HostRuntime) -> anyhow::Result<()> {
    run(&rt)
}

fn run(rt: &HostRuntime) -> anyhow::Result<()> {
    let heap = rt.alloc();
    let mut text = String::new(heap);
    play(&mut text, &mut Sc::new(heap)?, &MESSAGE_PASSING)?;
    play(&mut text, &mut Tso::new(heap)?, &MESSAGE_PASSING)?;
    play(&mut text, &mut Pso::new(heap)?, &MESSAGE_PASSING)?;
    play(&mut text, &mut Wmm::new(heap)?, &MESSAGE_PASSING)?;
    print!(rt; "{text}")?;
    Ok(())
}
