// Every refusal of a sheet with its place, and its neighbours that are accepted.
use crate::cases::{Case, agrees};
use formats::Sheet;
use model::{Layer, Refusal};

const SHEETS: [Case; 17] = [
    Case {
        bytes: &[],
        refused: Some((Refusal::Cut, 0)),
    },
    Case {
        bytes: &[0],
        refused: Some((Refusal::Cut, 1)),
    },
    Case {
        bytes: &[4, 0],
        refused: Some((Refusal::Count, 0)),
    },
    // the kind comes before the moves
    Case {
        bytes: &[4, 9],
        refused: Some((Refusal::Count, 0)),
    },
    Case {
        bytes: &[0, 0],
        refused: None,
    },
    Case {
        bytes: &[3, 0],
        refused: None,
    },
    Case {
        bytes: &[0, 1],
        refused: Some((Refusal::Cut, 2)),
    },
    Case {
        bytes: &[0, 1, 0, 0],
        refused: Some((Refusal::Cut, 4)),
    },
    Case {
        bytes: &[0, 1, 0, 0, 0],
        refused: None,
    },
    // bytes behind the moves are ignored
    Case {
        bytes: &[0, 0, 9, 9],
        refused: None,
    },
    // any processor, serial and address will do: the bench answers for them
    Case {
        bytes: &[1, 3, 0, 255, 0, 1, 200, 255, 2, 255, 255],
        refused: None,
    },
    Case {
        bytes: &[0, 1, 3, 0, 0],
        refused: Some((Refusal::Malformed, 2)),
    },
    Case {
        bytes: &[0, 1, 255, 0, 0],
        refused: Some((Refusal::Malformed, 2)),
    },
    // a step has no operand
    Case {
        bytes: &[0, 1, 0, 0, 1],
        refused: Some((Refusal::Malformed, 2)),
    },
    Case {
        bytes: &[0, 2, 0, 9, 0, 0, 0, 7],
        refused: Some((Refusal::Malformed, 5)),
    },
    Case {
        bytes: &[0, 2, 3, 0, 0, 0, 0, 7],
        refused: Some((Refusal::Malformed, 2)),
    },
    Case {
        bytes: &[0, 2, 3, 0, 0],
        refused: Some((Refusal::Cut, 5)),
    },
];

#[test]
fn sheets(rt: HostRuntime) {
    for case in SHEETS.iter() {
        assert!(rt; agrees(Sheet::try_from(case.bytes), Layer::Sheet, case.refused));
    }
}

// 255 moves have 767 bytes.
#[test]
fn long_sheets(rt: HostRuntime) {
    let mut bytes = [0u8; 767];
    bytes[1] = 255;
    assert!(rt;
        agrees(
            Sheet::try_from(&bytes[0..766]),
            Layer::Sheet,
            Some((Refusal::Cut, 766))
        )
    );
    assert!(rt; agrees(Sheet::try_from(&bytes[0..767]), Layer::Sheet, None));
}
