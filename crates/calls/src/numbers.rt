// What a line of a script says in numbers: the digits among its bytes.

// The number that the digits among some bytes write, held at the largest; a byte that is no digit is passed over.
pub(crate) fn number(s: &[u8]) -> u64 {
    let digits = s.iter().filter(|b| b.is_ascii_digit());
    digits.fold(0, |value: u64, digit| {
        value
            .saturating_mul(10)
            .saturating_add(u64::from(digit - b'0'))
    })
}

// What stands before the first comma, and what from it on.
fn split(s: &[u8]) -> (&[u8], &[u8]) {
    let comma = s.iter().position(|b| *b == b',').unwrap_or(s.len());
    s.split_at(comma)
}

// Two numbers that are parted by a comma.
pub(crate) fn numbers(s: &[u8]) -> (u64, u64) {
    let (first, second) = split(s);
    (number(first), number(second))
}

// Three numbers that are parted by commas.
pub(crate) fn three_numbers(s: &[u8]) -> (u64, u64, u64) {
    let (first, others) = split(s);
    let (second, third) = numbers(others.get(1..).unwrap_or(&[]));
    (number(first), second, third)
}
