// Which refusal comes first, and what each kind lands.
use crate::call::{Answer, Call, Got, make};
use machine::{Pso, Sc, Tso, Wmm};
use model::Refusal;
use port::{Memory, Port};
use std::process::Abort;
use std::test::Fail;

// Makes each call in turn, and holds its answer to the one beside it.
pub fn play<M: Memory>(rt: &impl Abort, machine: &mut M, cases: &[(Call, Answer)]) {
    for &(call, answer) in cases {
        assert_eq!(rt; make(machine, call), answer);
    }
}

// Processor 4 and address 8 do not exist, and the processor comes first. Looking answers none past a
// count.
const EDGES: [(Call, Answer); 22] = [
    (Call::Newest(4, 8), Err((Refusal::NoCore, 4))),
    (Call::Newest(4, 7), Err((Refusal::NoCore, 4))),
    (Call::Newest(3, 8), Err((Refusal::OffMap, 3))),
    (Call::Newest(3, 7), Ok(Got::Word(0))),
    (Call::Old(200, 8, 0), Err((Refusal::NoCore, 200))),
    (Call::Old(2, 255, 0), Err((Refusal::OffMap, 2))),
    (Call::Old(2, 7, 0), Err((Refusal::NoCopy, 2))),
    (Call::Put(4, 8, 1, 0), Err((Refusal::NoCore, 4))),
    (Call::Put(0, 8, 1, 0), Err((Refusal::OffMap, 0))),
    (Call::Landing(4, 8), Err((Refusal::NoCore, 4))),
    (Call::Landing(1, 8), Err((Refusal::OffMap, 1))),
    (Call::Landing(1, 7), Err((Refusal::NothingWaits, 1))),
    (Call::Commit(4), Err((Refusal::NoCore, 4))),
    (Call::Commit(3), Ok(Got::Done)),
    (Call::Reconcile(4), Err((Refusal::NoCore, 4))),
    (Call::Reconcile(3), Ok(Got::Done)),
    (Call::Cell(8), Err((Refusal::OffMap, 0))),
    (Call::Cell(7), Ok(Got::Word(0))),
    (Call::Waiting(4, 0), Err((Refusal::NoCore, 4))),
    (Call::Waiting(3, 0), Ok(Got::Past)),
    (Call::Copy(9, 0), Err((Refusal::NoCore, 9))),
    (Call::Counts(3), Ok(Got::Counts(0, 0))),
];

#[test]
fn every_kind_refuses_in_one_order(rt: HostRuntime) -> Result<(), Fail> {
    play(&rt, &mut Sc::new(rt.alloc())?, &EDGES);
    play(&rt, &mut Tso::new(rt.alloc())?, &EDGES);
    play(&rt, &mut Pso::new(rt.alloc())?, &EDGES);
    play(&rt, &mut Wmm::new(rt.alloc())?, &EDGES);
    Ok(())
}

// That nothing waits at an address comes before the kind's own refusal.
const OLDEST_FIRST: [(Call, Answer); 8] = [
    (Call::Put(0, 0, 5, 0), Ok(Got::Waits)),
    (Call::Put(0, 1, 6, 1), Ok(Got::Waits)),
    (Call::Landing(0, 1), Err((Refusal::Held, 0))),
    (Call::Landing(0, 2), Err((Refusal::NothingWaits, 0))),
    (Call::Commit(0), Err((Refusal::Waits, 0))),
    (Call::Landing(0, 0), Ok(Got::Landed(5, 1))),
    (Call::Landing(0, 1), Ok(Got::Landed(6, 1))),
    (Call::Commit(0), Ok(Got::Done)),
];

#[test]
fn tso_lands_the_oldest_alone(rt: HostRuntime) -> Result<(), Fail> {
    play(&rt, &mut Tso::new(rt.alloc())?, &OLDEST_FIRST);
    Ok(())
}

const ANY_ADDRESS: [(Call, Answer); 7] = [
    (Call::Put(0, 0, 5, 0), Ok(Got::Waits)),
    (Call::Put(0, 1, 6, 1), Ok(Got::Waits)),
    (Call::Put(0, 1, 7, 2), Ok(Got::Waits)),
    (Call::Newest(0, 1), Ok(Got::Word(7))),
    (Call::Landing(0, 1), Ok(Got::Landed(6, 1))),
    (Call::Landing(0, 1), Ok(Got::Landed(7, 2))),
    (Call::Landing(0, 0), Ok(Got::Landed(5, 1))),
];

#[test]
fn pso_and_wmm_land_the_oldest_of_any_address(rt: HostRuntime) -> Result<(), Fail> {
    play(&rt, &mut Pso::new(rt.alloc())?, &ANY_ADDRESS);
    play(&rt, &mut Wmm::new(rt.alloc())?, &ANY_ADDRESS);
    Ok(())
}

#[test]
fn kinds_have_their_numbers(rt: HostRuntime) {
    assert_eq!(rt; <Sc as Port>::NUMBER, 0);
    assert_eq!(rt; <Tso as Port>::NUMBER, 1);
    assert_eq!(rt; <Pso as Port>::NUMBER, 2);
    assert_eq!(rt; <Wmm as Port>::NUMBER, 3);
}
