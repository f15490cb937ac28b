// Callers of machines: each makes one, stores a word, loads it back and lets the machine go.
ghost use Rattle.std.specs.Prelude.{◌≡◌, ◌<◌, true, false, IfOk, Ok, nat_lt, replicate};
ghost use Rattle.port.specs.Holdings.{nothing_yet};
ghost use Rattle.port.specs.Laws.{in_order};

use crate::eager::Eager;
use crate::passing::Passing;
use machine::{Pso, Sc, Tso, Wmm};
use model::{Fault, Order};
use port::{Fresh, Memory, Port};
use std::alloc::{AllocError, Global};

// Stores a word, and loads the newest at the same address by the same processor. A machine of any
// kind that accepts both answers the word, and a new one accepts both.
pub fn stored<M: Port>(machine: &mut M, processor: u8, address: u8, word: u32) -> Result<u32, Fault>
    ensures same { IfOk result (λ x. x ≡ word) }
    ensures new { processor < 4 → address < 8 → M.Memory.held machine.old ≡ nothing_yet → result ≡ Ok word }
{
    machine.put(processor, address, word, 0)?;
    let (read, _) = machine.newest(processor, address)?;
    Ok(read)
}

// The same of a new machine, which is let go.
fn once<M: Port + Drop>(mut machine: M, word: u32) -> u32
    requires { M.Memory.held machine ≡ nothing_yet }
    ensures { result ≡ word }
{
    stored(&mut machine, 0, 1, word).unwrap()
}

// A new machine of any kind answers the word, once there is memory for it.
pub fn on_new<M: Port + Fresh + Drop>(heap: Global, word: u32) -> Result<u32, AllocError>
    ensures { IfOk result (λ x. x ≡ word) }
{
    let machine = M::fresh(heap)?;
    Ok(once(machine, word))
}

// So does one of each of the four kinds, and of the kind that is none of them.
pub fn on_each(heap: Global, word: u32) -> Result<[u32; 5], AllocError>
    ensures { IfOk result (λ words. words ≡ replicate 5 word) }
{
    Ok([
        on_new::<Sc>(heap, word)?,
        on_new::<Tso>(heap, word)?,
        on_new::<Pso>(heap, word)?,
        on_new::<Wmm>(heap, word)?,
        on_new::<Eager>(heap, word)?,
    ])
}

// So does a layer over a layer over a machine.
pub fn on_layers(heap: Global, word: u32) -> Result<u32, AllocError>
    ensures { IfOk result (λ x. x ≡ word) }
{
    let machine = Wmm::new(heap)?;
    let layers = Passing::over(Passing::over(machine));
    Ok(once(layers, word))
}

// Whether a processor's stores land in their order on every machine of the kind.
pub fn keeps_store_order<M: Port>() -> bool
    ensures { result ≡ in_order M.Port.TABLE }
{
    M::TABLE.store.store == Order::Always
}

// Layers over TSO keep the order of stores, since TSO does.
pub fn layers_keep_store_order() -> bool
    ensures { result ≡ true }
{
    keeps_store_order::<Passing<Passing<Tso>>>()
}

// Whether the kind is one of the four.
pub fn is_published<M: Port>() -> bool
    ensures { result ≡ nat_lt M.Port.NUMBER 4 }
{
    M::NUMBER < 4
}

// A layer over an eager machine is none of them.
pub fn eager_is_published() -> bool
    ensures { result ≡ false }
{
    is_published::<Passing<Eager>>()
}

#[cfg(test)]
mod tests {
    use super::{on_each, on_layers};
    use std::test::Fail;

    // That there is memory for a machine no contract can say.
    #[test]
    fn machines_are_made(rt: HostRuntime) -> Result<(), Fail> {
        let heap = rt.alloc();
        assert_eq!(rt; on_each(heap, 7)?, [7; 5]);
        assert_eq!(rt; on_layers(heap, 7)?, 7);
        Ok(())
    }
}
