// The refusal table, the kinds, and how instructions and moves are written.
use formats::Move;
use isa::Instr;
use model::{Fault, Kind, Layer, Refusal};
use std::test::Fail;

struct Row {
    number: u8,
    refusal: Refusal,
    word: &'static str,
}

const TABLE: [Row; 19] = [
    Row {
        number: 1,
        refusal: Refusal::Cut,
        word: "cut",
    },
    Row {
        number: 2,
        refusal: Refusal::Count,
        word: "count",
    },
    Row {
        number: 3,
        refusal: Refusal::Malformed,
        word: "malformed",
    },
    Row {
        number: 4,
        refusal: Refusal::NoCore,
        word: "no core",
    },
    Row {
        number: 5,
        refusal: Refusal::Ended,
        word: "ended",
    },
    Row {
        number: 6,
        refusal: Refusal::Misfit,
        word: "misfit",
    },
    Row {
        number: 7,
        refusal: Refusal::OffMap,
        word: "off map",
    },
    Row {
        number: 8,
        refusal: Refusal::NothingWaits,
        word: "nothing waits",
    },
    Row {
        number: 9,
        refusal: Refusal::Waits,
        word: "waits",
    },
    Row {
        number: 10,
        refusal: Refusal::NoCopy,
        word: "no copy",
    },
    Row {
        number: 11,
        refusal: Refusal::Held,
        word: "held",
    },
    Row {
        number: 12,
        refusal: Refusal::Spent,
        word: "spent",
    },
    Row {
        number: 13,
        refusal: Refusal::Unfinished,
        word: "unfinished",
    },
    Row {
        number: 14,
        refusal: Refusal::Foreign,
        word: "foreign",
    },
    Row {
        number: 15,
        refusal: Refusal::Occupied,
        word: "occupied",
    },
    Row {
        number: 16,
        refusal: Refusal::Thread,
        word: "thread",
    },
    Row {
        number: 17,
        refusal: Refusal::Stray,
        word: "stray",
    },
    Row {
        number: 18,
        refusal: Refusal::Order,
        word: "order",
    },
    Row {
        number: 19,
        refusal: Refusal::Value,
        word: "value",
    },
];

#[test]
fn refusals(rt: HostRuntime) {
    for row in TABLE.iter() {
        assert_eq!(rt; u8::from(row.refusal), row.number);
        assert_eq!(rt; row.refusal.word(), row.word);
    }
}

#[test]
fn faults_in_print(rt: HostRuntime) -> Result<(), Fail> {
    let heap = rt.alloc();
    let fault = Fault {
        refusal: Refusal::Cut,
        layer: Layer::Card,
        place: 300,
    };
    assert_eq!(rt; fault.to_string(heap)?.as_str(), "refused 1 card 300");
    let fault = Fault {
        refusal: Refusal::NothingWaits,
        layer: Layer::Machine,
        place: 6,
    };
    assert_eq!(rt; fault.to_string(heap)?.as_str(), "refused 8 machine 6");
    assert_eq!(rt; Kind::Wmm.to_string(heap)?.as_str(), "WMM");
    Ok(())
}

#[test]
fn instructions_in_print(rt: HostRuntime) -> Result<(), Fail> {
    let heap = rt.alloc();
    let add = Instr::Add {
        target: 1,
        left: 2,
        right: 3,
    };
    assert_eq!(rt; add.to_string(heap)?.as_str(), "add r1 r2 r3");
    let sub = Instr::Sub {
        target: 7,
        left: 0,
        right: 7,
    };
    assert_eq!(rt; sub.to_string(heap)?.as_str(), "sub r7 r0 r7");
    let branch = Instr::Branch {
        register: 4,
        skip: 10,
    };
    assert_eq!(rt; branch.to_string(heap)?.as_str(), "branch r4 skip 10");
    assert_eq!(rt; Instr::Commit.to_string(heap)?.as_str(), "commit");
    assert_eq!(rt; Instr::Reconcile.to_string(heap)?.as_str(), "reconcile");
    let old = Move::OldLoad {
        processor: 1,
        serial: 0,
    };
    assert_eq!(rt; old.to_string(heap)?.as_str(), "old load 1 serial 0");
    Ok(())
}
