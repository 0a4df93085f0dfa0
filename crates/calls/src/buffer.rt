// The buffer that calls are lent, filled with bytes that no answer has, so that every byte that a call alters is seen.
use std::array;

// The bytes of the buffer.
pub const SIZE: usize = 16384;

// The byte at a place before a call: 128 and above, which no text has, and not the same in places a power of two apart.
fn byte_at(i: usize) -> u8 {
    128 + (i % 127) as u8
}

// The buffer before a call.
pub(crate) fn filled() -> [u8; SIZE] {
    array::from_fn(byte_at)
}

// Whether every byte from a place on is as it was before.
pub(crate) fn is_filled(out: &[u8; SIZE], from: usize) -> bool {
    out.iter()
        .enumerate()
        .skip(from)
        .all(|(i, byte)| *byte == byte_at(i))
}
