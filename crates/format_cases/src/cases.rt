// A case of a format: bytes, and how they are answered.
use model::{Fault, Layer, Refusal};

pub struct Case {
    pub bytes: &'static [u8],
    // the refusal and its place, or none where the bytes are accepted
    pub refused: Option<(Refusal, usize)>,
}

// Whether an answer is what a case expects of a layer. The fault is written out, and not made by
// `refuses`, which makes those of the formats too.
pub fn agrees<T: Drop>(
    answer: Result<T, Fault>,
    layer: Layer,
    refused: Option<(Refusal, usize)>,
) -> bool {
    let expected = refused.map(|(refusal, place)| Fault {
        refusal,
        layer,
        place,
    });
    answer.err() == expected
}
