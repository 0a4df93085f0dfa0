// Numbers behind the program's name.
ghost use Rattle.std.specs.Prelude.{◌≡◌, true, cond, Ok, Err, ◌+◌, ◌-◌, ◌*◌, ◌^◌, ltb};
ghost use Rattle.semantics.specs.Text.{is_digit};
ghost use Rattle.generate.specs.declared.word.Fault.TheVariants.{TooLarge};
ghost use Rattle.generate.specs.Numbers.{digits_from, number_said};

use std::env::{Env, FillError};

// Why a word says no number that is asked for.
#[derive(Clone, Copy)]
pub enum Fault {
    Missing,
    Malformed,
    TooLarge,
}

// The bytes of the longest word that is looked at. A number of 64 bits has 20 at most.
const WORD_BYTES: usize = 64;

// One digit more behind a number.
fn with_digit(v: u64, digit: u8) -> Result<u64, Fault>
    requires { is_digit digit ≡ true }
    ensures { result ≡ cond (ltb (v * 10 + (digit - 48)) (2 ^ 64)) (Ok (v * 10 + (digit - 48))) (Err TooLarge) }
{
    v.checked_mul(10)
        .and_then(|tens| tens.checked_add(u64::from(digit - b'0')))
        .ok_or(Fault::TooLarge)
}

// The number that digits write.
fn digits(word: &[u8]) -> Result<u64, Fault>
    ensures { result ≡ digits_from 0 word.now }
{
    let mut v: u64 = 0;
    for b in word {
        if !b.is_ascii_digit() {
            return Err(Fault::Malformed);
        }
        v = with_digit(v, *b)?;
    }
    Ok(v)
}

// The number that a word says.
fn number(word: &[u8]) -> Result<u64, Fault>
    ensures { result ≡ number_said word.now }
{
    match word {
        [] | [b'0', _, ..] => Err(Fault::Malformed),
        _ => digits(word),
    }
}

// The number that the word at a place says. The handle promises nothing of its bytes.
pub(crate) fn number_at(from: &impl Env, place: usize) -> Result<u64, Fault> {
    let mut word = [0u8; WORD_BYTES];
    match from.arg(place, &mut word) {
        Err(FillError::NotPresent) => Err(Fault::Missing),
        Err(FillError::TooLong) => Err(Fault::TooLarge),
        Ok(n) => number(&word[..n]),
    }
}

// The number of 32 bits that the word at a place says.
pub(crate) fn short_number_at(from: &impl Env, place: usize) -> Result<u32, Fault> {
    u32::try_from(number_at(from, place)?).map_err(|_| Fault::TooLarge)
}
