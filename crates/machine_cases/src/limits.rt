// 64 stores are taken, and no more.
use crate::call::{Answer, Call, Got};
use crate::order::play;
use machine::{Pso, Sc, Wmm};
use model::Refusal;
use port::Memory;
use std::test::Fail;

const FULL_BUFFER: [(Call, Answer); 5] = [
    (Call::Counts(2), Ok(Got::Counts(64, 0))),
    (Call::Waiting(2, 63), Ok(Got::Word(7))),
    (Call::Waiting(2, 64), Ok(Got::Past)),
    (Call::Put(2, 0, 7, 64), Err((Refusal::Spent, 2))),
    (Call::Put(1, 0, 7, 0), Err((Refusal::Spent, 1))),
];

#[test]
fn sixty_four_stores_of_one_processor_wait(rt: HostRuntime) -> Result<(), Fail> {
    let mut machine = Pso::new(rt.alloc())?;
    // by number, here and below: the place is what each call takes
    for place in 0..64u8 {
        play(
            &rt,
            &mut machine,
            &[(Call::Put(2, place % 8, 7, place), Ok(Got::Waits))],
        );
    }
    assert_eq!(rt; machine.total(), 64);
    play(&rt, &mut machine, &FULL_BUFFER);
    Ok(())
}

const ALL_LANDED: [(Call, Answer); 5] = [
    (Call::Counts(0), Ok(Got::Counts(0, 0))),
    (Call::Counts(1), Ok(Got::Counts(0, 64))),
    (Call::Counts(3), Ok(Got::Counts(0, 64))),
    (Call::Copy(3, 63), Ok(Got::Word(7))),
    (Call::Put(0, 3, 7, 64), Err((Refusal::Spent, 0))),
];

const RENEWED: [(Call, Answer); 3] = [
    (Call::Counts(1), Ok(Got::Counts(0, 0))),
    (Call::Cell(3), Ok(Got::Word(0))),
    (Call::Put(0, 3, 7, 0), Ok(Got::Waits)),
];

#[test]
fn sixty_four_stores_land_and_leave_copies(rt: HostRuntime) -> Result<(), Fail> {
    let mut machine = Wmm::new(rt.alloc())?;
    for place in 0..64u8 {
        play(
            &rt,
            &mut machine,
            &[(Call::Put(0, 3, 7, place), Ok(Got::Waits))],
        );
        play(
            &rt,
            &mut machine,
            &[(Call::Landing(0, 3), Ok(Got::Landed(7, place + 1)))],
        );
    }
    play(&rt, &mut machine, &ALL_LANDED);
    machine.renew();
    play(&rt, &mut machine, &RENEWED);
    Ok(())
}

// The order of refusals once the machine is spent.
const SPENT: [(Call, Answer); 3] = [
    (Call::Put(3, 5, 7, 64), Err((Refusal::Spent, 3))),
    (Call::Put(4, 8, 7, 64), Err((Refusal::NoCore, 4))),
    (Call::Put(3, 8, 7, 64), Err((Refusal::OffMap, 3))),
];

#[test]
fn sixty_four_stores_land_directly(rt: HostRuntime) -> Result<(), Fail> {
    let mut machine = Sc::new(rt.alloc())?;
    for place in 0..64u8 {
        let serial = place / 8 + 1;
        play(
            &rt,
            &mut machine,
            &[(
                Call::Put(place % 4, place % 8, 7, place),
                Ok(Got::Landed(7, serial)),
            )],
        );
    }
    play(&rt, &mut machine, &SPENT);
    Ok(())
}
