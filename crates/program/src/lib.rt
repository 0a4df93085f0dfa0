// What the programs share: what they tell on standard error where the lines don't come from standard input, and where a read or a write
// fails. The handles promise nothing of the words behind a name or of what is printed, so no clause here can: that is run, and read.
#![tactic(auto)]

ghost use Rattle.std.specs.Prelude.{IsOk};

use relay::Failure;
use std::env::{Env, FillError};
use std::io;
use std::io::Eprint;

// Whether there is a word at a place behind the program's name, whatever it is. The first is at 1.
pub fn has_word(from: &impl Env, place: usize) -> bool {
    let mut word = [0u8; 1];
    !matches!(from.arg(place, &mut word), Err(FillError::NotPresent))
}

// A word behind the program's name is most likely a file that was meant to be read: this says what the program prints of its lines, and how
// to hand it in.
pub fn tell_use(to: &impl Eprint, name: &str, prints: &str) -> io::Result<()> {
    eprintln!(to;
        "{name} reads the lines of a season from standard input and prints {prints} to standard output."
    )?;
    eprintln!(to; "It takes no word behind its name: {name} < season.txt")
}

// What failed, if anything did, with the system's reason.
pub fn tell_failure<T>(to: &impl Eprint, name: &str, outcome: &Result<T, Failure>) -> io::Result<()>
    ensures { IsOk outcome.now → IsOk result }
{
    match outcome {
        Ok(_) => Ok(()),
        Err(Failure::Read(why)) => eprintln!(to; "{name}: standard input: {why}"),
        Err(Failure::Write(why)) => eprintln!(to; "{name}: standard output: {why}"),
        Err(Failure::Endless) => eprintln!(to; "{name}: standard input: it has no end"),
    }
}
