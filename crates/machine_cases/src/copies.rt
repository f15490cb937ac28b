// Stale copies: who gets one, and who loses which.
use crate::call::{Answer, Call, Got};
use crate::order::play;
use machine::Wmm;
use model::Refusal;
use std::test::Fail;

// Neither the lander nor a processor whose own store waits at the address gets a copy.
const TO_THE_OTHERS: [(Call, Answer); 10] = [
    (Call::Put(0, 2, 5, 0), Ok(Got::Waits)),
    (Call::Put(1, 2, 6, 0), Ok(Got::Waits)),
    (Call::Put(2, 3, 7, 0), Ok(Got::Waits)),
    (Call::Landing(0, 2), Ok(Got::Landed(5, 1))),
    (Call::Counts(0), Ok(Got::Counts(0, 0))),
    (Call::Counts(1), Ok(Got::Counts(1, 0))),
    (Call::Counts(2), Ok(Got::Counts(1, 1))),
    (Call::Counts(3), Ok(Got::Counts(0, 1))),
    (Call::Newest(1, 2), Ok(Got::Word(6))),
    (Call::Old(3, 2, 0), Ok(Got::Word(0))),
];

// An old load keeps the copy that it read, and drops those with smaller serials.
const FORWARD: [(Call, Answer); 16] = [
    (Call::Put(0, 2, 10, 0), Ok(Got::Waits)),
    (Call::Landing(0, 2), Ok(Got::Landed(10, 1))),
    (Call::Put(0, 2, 11, 1), Ok(Got::Waits)),
    (Call::Landing(0, 2), Ok(Got::Landed(11, 2))),
    (Call::Put(0, 2, 12, 2), Ok(Got::Waits)),
    (Call::Landing(0, 2), Ok(Got::Landed(12, 3))),
    (Call::Counts(1), Ok(Got::Counts(0, 3))),
    (Call::Old(1, 2, 1), Ok(Got::Word(10))),
    (Call::Counts(1), Ok(Got::Counts(0, 2))),
    (Call::Old(1, 2, 1), Ok(Got::Word(10))),
    (Call::Old(1, 2, 0), Err((Refusal::NoCopy, 1))),
    (Call::Old(1, 2, 3), Err((Refusal::NoCopy, 1))),
    (Call::Old(1, 2, 2), Ok(Got::Word(11))),
    (Call::Newest(1, 2), Ok(Got::Word(12))),
    (Call::Counts(1), Ok(Got::Counts(0, 0))),
    (Call::Counts(3), Ok(Got::Counts(0, 3))),
];

// A put and a Reconcile let go of copies.
const LOST: [(Call, Answer); 12] = [
    (Call::Put(0, 0, 5, 0), Ok(Got::Waits)),
    (Call::Landing(0, 0), Ok(Got::Landed(5, 1))),
    (Call::Put(0, 1, 6, 1), Ok(Got::Waits)),
    (Call::Landing(0, 1), Ok(Got::Landed(6, 1))),
    (Call::Counts(1), Ok(Got::Counts(0, 2))),
    (Call::Put(1, 0, 9, 0), Ok(Got::Waits)),
    (Call::Counts(1), Ok(Got::Counts(1, 1))),
    (Call::Old(1, 0, 0), Err((Refusal::NoCopy, 1))),
    (Call::Copy(1, 0), Ok(Got::Word(0))),
    (Call::Reconcile(1), Ok(Got::Done)),
    (Call::Old(1, 1, 0), Err((Refusal::NoCopy, 1))),
    (Call::Counts(2), Ok(Got::Counts(0, 2))),
];

#[test]
fn wmm_keeps_and_loses_copies(rt: HostRuntime) -> Result<(), Fail> {
    play(&rt, &mut Wmm::new(rt.alloc())?, &TO_THE_OTHERS);
    play(&rt, &mut Wmm::new(rt.alloc())?, &FORWARD);
    play(&rt, &mut Wmm::new(rt.alloc())?, &LOST);
    Ok(())
}
