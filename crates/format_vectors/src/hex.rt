// Bytes in hexadecimal.
ghost use Rattle.std.specs.Prelude.{◌≡◌, ◌<◌, IfOk};
ghost use Rattle.format_vectors.specs.Hex.{Spelled, digit_of};

use std::alloc::{AllocError, Global};

// A byte for each two digits. A digit left over is passed over, so `-` stands for no bytes.
pub fn bytes_of(heap: Global, text: &[u8]) -> Result<Vec<u8>, AllocError>
    ensures { IfOk result (λ bytes. Spelled text.now bytes.items) }
{
    let (pairs, _) = text.as_chunks::<2>();
    pairs
        .iter()
        .map(|&[high, low]| 16 * digit_of(high) + digit_of(low))
        .collect(heap)
}

// The value of a digit, and 0 for what is none.
fn digit_of(b: u8) -> u8
    ensures value { result ≡ digit_of b }
    ensures bound { result < 16 }
{
    match b {
        b'0'..=b'9' => b - b'0',
        b'a'..=b'f' => b - b'a' + 10,
        _ => 0,
    }
}
