// Every refusal of a card with its place, and its neighbours that are accepted.
use crate::cases::{Case, agrees};
use formats::Card;
use model::{Layer, Refusal};

const HEADERS: [Case; 17] = [
    Case {
        bytes: &[],
        refused: Some((Refusal::Cut, 0)),
    },
    Case {
        bytes: &[2],
        refused: Some((Refusal::Cut, 1)),
    },
    Case {
        bytes: &[0, 1],
        refused: Some((Refusal::Count, 0)),
    },
    Case {
        bytes: &[5, 1],
        refused: Some((Refusal::Count, 0)),
    },
    Case {
        bytes: &[0, 0],
        refused: Some((Refusal::Count, 0)),
    },
    Case {
        bytes: &[1, 0],
        refused: Some((Refusal::Count, 1)),
    },
    Case {
        bytes: &[1, 9],
        refused: Some((Refusal::Count, 1)),
    },
    Case {
        bytes: &[2, 1, 0, 6, 0],
        refused: Some((Refusal::Cut, 5)),
    },
    Case {
        bytes: &[1, 1, 17, 4],
        refused: Some((Refusal::Count, 2)),
    },
    // an empty thread: inside the header, at the end, past the end
    Case {
        bytes: &[1, 1, 0, 3],
        refused: Some((Refusal::Cut, 4)),
    },
    Case {
        bytes: &[1, 1, 0, 4],
        refused: None,
    },
    Case {
        bytes: &[1, 1, 0, 5],
        refused: Some((Refusal::Cut, 4)),
    },
    Case {
        bytes: &[1, 1, 1, 4, 6, 0, 0],
        refused: Some((Refusal::Cut, 7)),
    },
    // a core's count comes before its offset, and core 0's offset before core 1's count
    Case {
        bytes: &[2, 1, 17, 3, 0, 6],
        refused: Some((Refusal::Count, 2)),
    },
    Case {
        bytes: &[2, 1, 0, 3, 17, 6],
        refused: Some((Refusal::Cut, 6)),
    },
    Case {
        bytes: &[2, 1, 0, 6, 17, 6],
        refused: Some((Refusal::Count, 4)),
    },
    Case {
        bytes: &[4, 8, 0, 10, 0, 10, 0, 10, 0, 10],
        refused: None,
    },
];

#[test]
fn headers(rt: HostRuntime) {
    for case in HEADERS.iter() {
        assert!(rt; agrees(Card::try_from(case.bytes), Layer::Card, case.refused));
    }
}

// The four bytes of the only instruction of a card, and how they are answered.
struct Alone {
    bytes: [u8; 4],
    expected: Result<(), Refusal>,
}

const INSTRUCTIONS: [Alone; 28] = [
    // Set: s is 0, c is any byte
    Alone {
        bytes: [0, 7, 0, 255],
        expected: Ok(()),
    },
    Alone {
        bytes: [0, 8, 0, 1],
        expected: Err(Refusal::Malformed),
    },
    Alone {
        bytes: [0, 0, 1, 1],
        expected: Err(Refusal::Malformed),
    },
    // Add and Sub: three registers
    Alone {
        bytes: [1, 7, 7, 7],
        expected: Ok(()),
    },
    Alone {
        bytes: [1, 8, 0, 0],
        expected: Err(Refusal::Malformed),
    },
    Alone {
        bytes: [1, 0, 8, 0],
        expected: Err(Refusal::Malformed),
    },
    Alone {
        bytes: [1, 0, 0, 8],
        expected: Err(Refusal::Malformed),
    },
    Alone {
        bytes: [2, 7, 7, 7],
        expected: Ok(()),
    },
    Alone {
        bytes: [2, 8, 0, 0],
        expected: Err(Refusal::Malformed),
    },
    Alone {
        bytes: [2, 0, 8, 0],
        expected: Err(Refusal::Malformed),
    },
    Alone {
        bytes: [2, 0, 0, 8],
        expected: Err(Refusal::Malformed),
    },
    // Branch: s is 0, and the target is at most the thread's end
    Alone {
        bytes: [3, 7, 0, 0],
        expected: Ok(()),
    },
    Alone {
        bytes: [3, 0, 0, 1],
        expected: Err(Refusal::Malformed),
    },
    Alone {
        bytes: [3, 8, 0, 0],
        expected: Err(Refusal::Malformed),
    },
    Alone {
        bytes: [3, 0, 1, 0],
        expected: Err(Refusal::Malformed),
    },
    // Load and Store: two registers, c is any byte
    Alone {
        bytes: [4, 7, 7, 255],
        expected: Ok(()),
    },
    Alone {
        bytes: [4, 8, 0, 0],
        expected: Err(Refusal::Malformed),
    },
    Alone {
        bytes: [4, 0, 8, 0],
        expected: Err(Refusal::Malformed),
    },
    Alone {
        bytes: [5, 7, 7, 255],
        expected: Ok(()),
    },
    Alone {
        bytes: [5, 8, 0, 0],
        expected: Err(Refusal::Malformed),
    },
    Alone {
        bytes: [5, 0, 8, 0],
        expected: Err(Refusal::Malformed),
    },
    // Commit and Reconcile: all fields are 0
    Alone {
        bytes: [6, 0, 0, 0],
        expected: Ok(()),
    },
    Alone {
        bytes: [6, 1, 0, 0],
        expected: Err(Refusal::Malformed),
    },
    Alone {
        bytes: [6, 0, 1, 0],
        expected: Err(Refusal::Malformed),
    },
    Alone {
        bytes: [7, 0, 0, 0],
        expected: Ok(()),
    },
    Alone {
        bytes: [7, 0, 0, 1],
        expected: Err(Refusal::Malformed),
    },
    // no other kind
    Alone {
        bytes: [8, 0, 0, 0],
        expected: Err(Refusal::Malformed),
    },
    Alone {
        bytes: [255, 0, 0, 0],
        expected: Err(Refusal::Malformed),
    },
];

#[test]
fn instructions(rt: HostRuntime) {
    for case in INSTRUCTIONS.iter() {
        let [kind, d, s, c] = case.bytes;
        let refused = case.expected.err().map(|refusal| (refusal, 4));
        let bytes = [1, 1, 1, 4, kind, d, s, c];
        assert!(rt; agrees(Card::try_from(bytes.as_slice()), Layer::Card, refused));
    }
}

const THREADS: [Case; 7] = [
    // a branch over the last instruction to exactly the end, and one past it
    Case {
        bytes: &[1, 1, 2, 4, 3, 0, 0, 1, 6, 0, 0, 0],
        refused: None,
    },
    Case {
        bytes: &[1, 1, 2, 4, 3, 0, 0, 2, 6, 0, 0, 0],
        refused: Some((Refusal::Malformed, 4)),
    },
    // shared bytes: the branch is good in a thread of two, and malformed in a thread of one
    Case {
        bytes: &[2, 1, 2, 6, 2, 6, 3, 0, 0, 1, 6, 0, 0, 0],
        refused: None,
    },
    Case {
        bytes: &[2, 1, 2, 6, 1, 6, 3, 0, 0, 1, 6, 0, 0, 0],
        refused: Some((Refusal::Malformed, 6)),
    },
    // by core and not by byte: core 0's instruction stands behind core 1's
    Case {
        bytes: &[2, 1, 1, 10, 1, 6, 9, 0, 0, 0, 9, 0, 0, 0],
        refused: Some((Refusal::Malformed, 10)),
    },
    // a second instruction, and bytes that belong to no thread
    Case {
        bytes: &[1, 1, 2, 4, 6, 0, 0, 0, 8, 0, 0, 0],
        refused: Some((Refusal::Malformed, 8)),
    },
    Case {
        bytes: &[1, 1, 1, 8, 9, 9, 9, 9, 6, 0, 0, 0, 9],
        refused: None,
    },
];

#[test]
fn threads(rt: HostRuntime) {
    for case in THREADS.iter() {
        assert!(rt; agrees(Card::try_from(case.bytes), Layer::Card, case.refused));
    }
}

// A thread from byte 255 on would end at byte 319: the place is the length, above 255.
#[test]
fn long_cards(rt: HostRuntime) {
    let mut bytes = [0u8; 319];
    bytes[0] = 1;
    bytes[1] = 1;
    bytes[2] = 16;
    bytes[3] = 255;
    assert!(rt;
        agrees(
            Card::try_from(&bytes[0..318]),
            Layer::Card,
            Some((Refusal::Cut, 318))
        )
    );
    assert!(rt; agrees(Card::try_from(&bytes[0..319]), Layer::Card, None));
}
