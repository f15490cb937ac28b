// What a card and a sheet say: the store-buffering program and its run on TSO.
use formats::{Card, Move, Sheet};
use isa::{Instr, address};
use model::Kind;
use std::test::Fail;

const CARD: [u8; 30] = [
    2, 2, 3, 6, 3, 18, 0, 0, 0, 1, 5, 0, 7, 0, 4, 1, 7, 1, 0, 0, 0, 1, 5, 0, 7, 1, 4, 1, 7, 0,
];

const SHEET: [u8; 26] = [
    1, 8, 0, 0, 0, 0, 0, 0, 0, 1, 0, 0, 1, 0, 0, 0, 0, 0, 1, 0, 2, 0, 0, 2, 1, 1,
];

#[test]
fn reads_a_card(rt: HostRuntime) -> Result<(), Fail> {
    let card = Card::try_from(CARD.as_slice())?;
    assert_eq!(rt; card.processors(), 2);
    assert_eq!(rt; card.addresses(), 2);
    assert_eq!(rt; card.thread_len(0), 3);
    assert_eq!(rt; card.thread_len(1), 3);
    assert_eq!(rt; card.thread_len(2), 0);
    assert_eq!(rt;
        card.instr(0, 0),
        Some(Instr::Set {
            target: 0,
            value: 1,
        })
    );
    assert_eq!(rt;
        card.instr(0, 1),
        Some(Instr::Store {
            source: 0,
            base: 7,
            displacement: 0,
        })
    );
    assert_eq!(rt;
        card.instr(1, 2),
        Some(Instr::Load {
            target: 1,
            base: 7,
            displacement: 0,
        })
    );
    assert_eq!(rt; card.instr(0, 3), None);
    assert_eq!(rt; card.instr(2, 0), None);
    assert_eq!(rt; card.instr(255, 255), None);
    Ok(())
}

#[test]
fn reads_a_sheet(rt: HostRuntime) -> Result<(), Fail> {
    let sheet = Sheet::try_from(SHEET.as_slice())?;
    assert_eq!(rt; sheet.kind(), Kind::Tso);
    assert_eq!(rt; sheet.len(), 8);
    assert_eq!(rt; sheet.get(0), Some(Move::Step { processor: 0 }));
    assert_eq!(rt; sheet.get(5), Some(Move::Step { processor: 1 }));
    assert_eq!(rt;
        sheet.get(7),
        Some(Move::Landing {
            processor: 1,
            address: 1,
        })
    );
    assert_eq!(rt; sheet.get(8), None);
    assert_eq!(rt;
        Move::try_from([1, 3, 9].as_slice()),
        Ok(Move::OldLoad {
            processor: 3,
            serial: 9,
        })
    );
    Ok(())
}

#[test]
fn addresses_wrap(rt: HostRuntime) {
    assert_eq!(rt; address(8, 4294967295, 1), Some(0));
    assert_eq!(rt; address(2, 0, 1), Some(1));
    assert_eq!(rt; address(2, 1, 1), None);
    assert_eq!(rt; address(8, 7, 0), Some(7));
    assert_eq!(rt; address(8, 4294967295, 0), None);
}
