// Accesses of memory, and the refusals that every call shares.
ghost use Rattle.std.specs.Prelude.{◌≡◌, ◌<◌, IfOk, OnOk};
ghost use Rattle.std.specs.Option.{option_map};
ghost use Rattle.std.specs.Result.{result_err};
ghost use Rattle.port.specs.Calls.{answered, core_refusal, fault, map_refusal};
ghost use Rattle.port.specs.Holdings.{store_of};

use model::{Fault, Layer, Origin, Refusal, WaitingStore};

// A processor and an address that exist. Never compared, so `Clone` and `Copy` are all it derives.
#[derive(Clone, Copy)]
pub struct Access {
    pub processor: u8,
    pub address: u8,
    ghost on_core: { processor < 4 },
    ghost on_map: { address < 8 },
}

impl Access {
    // The store of a word, by the instruction at a place of the processor's thread.
    pub fn store(self, word: u32, place: u8) -> WaitingStore
        ensures { result ≡ store_of self.processor self.address word place }
    {
        let origin = Origin::Store {
            processor: self.processor,
            place,
        };
        WaitingStore {
            address: self.address,
            word,
            origin,
        }
    }
}

// The fault that names a processor.
pub fn refused(refusal: Refusal, processor: u8) -> Fault
    ensures { result ≡ fault refusal processor }
{
    Layer::Machine.refuses(refusal, usize::from(processor))
}

// There are four processors.
pub fn on_core(processor: u8) -> Result<(), Fault>
    ensures value { result ≡ answered (core_refusal processor) processor tt }
    ensures within { OnOk result (processor < 4) }
{
    if processor > 3 {
        return Err(refused(Refusal::NoCore, processor));
    }
    Ok(())
}

// There are four processors and eight addresses.
pub fn on_map(processor: u8, address: u8) -> Result<Access, Fault>
    ensures refusal { result_err result ≡ option_map (λ refusal. fault refusal processor) (map_refusal processor address) }
    ensures processor { IfOk result (λ access. access.processor ≡ processor) }
    ensures address { IfOk result (λ access. access.address ≡ address) }
{
    on_core(processor)?;
    if address > 7 {
        return Err(refused(Refusal::OffMap, processor));
    }
    Ok(Access { processor, address })
}
