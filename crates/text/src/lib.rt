// The bytes of a line: its fields, and the numbers and ids that they say; and ids as they are stored.
#![tactic(auto)]

ghost use Rattle.std.specs.Prelude.{◌≡◌, ◌+◌, ◌≤◌, ◌<◌, ◌^◌, [], ◌∷◌, length, true, false, MatchOption, List, ℕ};
ghost use Rattle.semantics.specs.Basics.{every, same};
ghost use Rattle.semantics.specs.Limits.{max_id_bytes};
ghost use Rattle.semantics.specs.Text.{fields, number, is_id_byte, is_id};
ghost use Rattle.semantics.specs.Buffers.{written};
ghost use Rattle.writing.specs.Pages.{HasRoom, Wrote};
ghost use Rattle.text.specs.Lines.{fields_from};
ghost use Rattle.text.specs.Numbers.{as_number, digits_from};
ghost use Rattle.text.specs.Ids.{word_bytes, slot_bytes, trimmed, slot, word_of, bytes_of, eight_of, slot_of, id_bytes, packed, read_id};

use std::marker::Model;
use writing::Page;

// The most bytes of an id.
pub const ID_BYTES: usize = 11;

// The bytes of a number, and those that an id is stored in: two numbers, zeros behind the id.
const WORD_BYTES: usize = 8;

pub const SLOT_BYTES: usize = 16;

// How many fields a line has: one more than it has commas.
#[tactic(auto, using(crate::proofs::Lines::length_fields))]
fn count_fields(s: &[u8]) -> usize
    ensures { result ≡ length (fields s.now) }
{
    s.iter().filter(|b| **b == b',').count() + 1
}

// The fields of a line that are still to be read: those from a place on, and none past the end of the line.
#[derive(Drop)]
pub struct Fields<'a> {
    line: &'a [u8],
    from: usize,
}

impl<'a> Model for Fields<'a> {
    ghost Value = { List (List ℕ) };

    ghost view = { λ f. fields_from f.line.now f.from };

    ghost invariant = { λ f. length f.line.now < 2 ^ 63 };
}

impl<'a> Fields<'a> {
    // All fields of a line.
    pub fn new(line: &'a [u8]) -> Fields<'a>
        ensures { result ≡ fields line.now }
    {
        Fields { line, from: 0 }
    }

    // How many there are.
    pub fn len(&self) -> usize
        ensures { result ≡ length self.now }
    {
        if self.line.len() < self.from {
            return 0;
        }
        count_fields(&self.line[self.from..])
    }

    // The next one: the bytes up to a comma, or to the end of the line. Where there is none, none is left either.
    #[tactic(auto, using(crate::proofs::Lines::end_within))]
    pub fn next(&mut self) -> Option<&'a [u8]>
        ensures { MatchOption result ((self.old ≡ []) × (self.new ≡ [])) (λ f. self.old ≡ f.now ∷ self.new) }
    {
        let line = self.line;
        let from = self.from;
        if line.len() < from {
            return None;
        }
        let end = scanning::find(line, from, b',');
        self.from = end + 1;
        Some(&line[from..end])
    }
}

// Reads digits, at most three of them.
fn read_digits(s: &[u8]) -> Option<u16>
    requires { length s.now ≤ 3 }
    ensures { as_number result ≡ digits_from 0 s.now }
{
    let mut v = 0;
    for b in s {
        if !b.is_ascii_digit() {
            return None;
        }
        v = v * 10 + u16::from(*b - b'0');
    }
    Some(v)
}

// Reads a number of one to three digits, with no leading zero but in 0 itself.
pub fn read_number(s: &[u8]) -> Option<u16>
    ensures { as_number result ≡ number s.now }
{
    match s {
        [_] | [b'1'..=b'9', _] | [b'1'..=b'9', _, _] => read_digits(s),
        _ => None,
    }
}

// An id as two numbers: its first eight bytes and those behind them, the first byte lowest, and zeros behind the last.
#[derive(Clone, Copy, PartialEq, Eq)]
pub struct Id {
    pub low: u64,
    pub high: u64,
}

// Whether a byte is one of A to Z or 0 to 9.
fn is_id_byte(b: u8) -> bool
    ensures { result ≡ is_id_byte b }
{
    matches!(b, b'A'..=b'Z' | b'0'..=b'9')
}

// Whether every byte is one of those.
fn are_id_bytes(s: &[u8]) -> bool
    ensures { result ≡ every is_id_byte s.now }
{
    s.iter().all(|b| is_id_byte(*b))
}

// Up to eight bytes as one number, the first lowest. Of eight bytes of an array the compiler makes one load.
fn word_of(s: &[u8]) -> u64
    requires { length s.now ≤ word_bytes }
    ensures number { result ≡ word_of s.now }
    ensures back { bytes_of (length s.now) result ≡ s.now }
{
    let mut word = 0;
    for b in s.iter().rev() {
        word = word * 256 + u64::from(*b);
    }
    word
}

// The two numbers of an id's bytes.
#[tactic(auto, unfolding(crate::specs::Ids::packed))]
fn packed(s: &[u8]) -> Id
    requires { length s.now ≤ slot_bytes }
    ensures { result ≡ packed s.now }
{
    if s.len() <= WORD_BYTES {
        return Id {
            low: word_of(s),
            high: 0,
        };
    }
    let (low, high) = s.split_at(WORD_BYTES);
    Id {
        low: word_of(low),
        high: word_of(high),
    }
}

// Reads an id: one byte to as many as an id may have, each A to Z or 0 to 9.
#[tactic(auto, using(crate::proofs::Ids::id_packed))]
pub fn read_id(s: &[u8]) -> Option<Id>
    ensures value { result ≡ read_id s.now }
    ensures field { MatchOption result
        (is_id s.now ≡ false)
        (λ id. (is_id s.now ≡ true) × (id_bytes id ≡ s.now)) }
    ensures width { MatchOption result Unit (λ id. length (id_bytes id) ≤ max_id_bytes) }
{
    if s.is_empty() || ID_BYTES < s.len() || !are_id_bytes(s) {
        return None;
    }
    Some(packed(s))
}

// The id that stands at `at` among stored bytes.
pub fn id_at(stored: &[u8], at: usize) -> Id
    requires { at + slot_bytes ≤ length stored.now }
    ensures { slot_of result ≡ slot stored.now at }
{
    let middle = at + WORD_BYTES;
    let end = at + SLOT_BYTES;
    Id {
        low: word_of(&stored[at..middle]),
        high: word_of(&stored[middle..end]),
    }
}

// Whether an id is the one that stands at `at` among stored bytes. The second numbers are looked at where the first are the same.
pub fn same_id(id: Id, stored: &[u8], at: usize) -> bool
    requires { at + slot_bytes ≤ length stored.now }
    ensures { result ≡ same (id_bytes id) (trimmed (slot stored.now at)) }
{
    let middle = at + WORD_BYTES;
    let end = at + SLOT_BYTES;
    if id.low != word_of(&stored[at..middle]) {
        return false;
    }
    id.high == word_of(&stored[middle..end])
}

// How many bytes a number has before its zeros.
fn word_length(word: u64) -> usize
    ensures { result ≡ length (trimmed (eight_of word)) }
{
    WORD_BYTES - word.leading_zeros() as usize / 8
}

// How many bytes an id has.
pub fn id_length(id: Id) -> usize
    ensures { result ≡ length (id_bytes id) }
{
    if id.high == 0 {
        return word_length(id.low);
    }
    WORD_BYTES + word_length(id.high)
}

// The bytes that an id is stored in.
fn slot_of(id: Id) -> [u8; SLOT_BYTES]
    ensures { result ≡ slot_of id }
{
    let mut slot = [0u8; SLOT_BYTES];
    slot[..WORD_BYTES].copy_from_slice(&id.low.to_le_bytes());
    slot[WORD_BYTES..].copy_from_slice(&id.high.to_le_bytes());
    slot
}

// Whether a stored id is well formed: its bytes those of an id, and nothing but zeros behind them.
pub fn is_id(id: Id) -> bool
    ensures { result ≡ is_id (id_bytes id) }
{
    let n = id_length(id);
    0 < n && n <= ID_BYTES && are_id_bytes(&slot_of(id)[..n])
}

// Writes an id without its padding.
pub fn write_id(page: &mut Page, id: Id)
    requires { HasRoom page.old (length (id_bytes id)) }
    ensures { Wrote page.old (id_bytes id) page.new }
{
    page.bytes(&slot_of(id)[..id_length(id)]);
}

// Writes an id with its padding at `at`, as it is stored, and returns the place after it.
pub fn write_slot(out: &mut [u8], at: usize, id: Id) -> usize
    requires { at + slot_bytes ≤ length out.old }
    ensures next { result ≡ at + slot_bytes }
    ensures written { out.new ≡ written out.old at (slot_of id) }
{
    writing::write_bytes(out, at, &slot_of(id))
}
