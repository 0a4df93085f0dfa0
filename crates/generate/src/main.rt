// The program: the text of U3's book of a start and a number of plots, both as words behind its name, to standard output.
#![tactic(auto)]

mod word;

ghost use Rattle.std.specs.Prelude.{◌≡◌};
ghost use Rattle.semantics.specs.Drawing.{drawn_output};
ghost use Rattle.relay.specs.Sending.{Putting};

use relay::Failure;
use std::io;
use std::io::{Eprint, Write};
use word::{Fault, number_at, short_number_at};

// Sends what is printed for a start and a number of plots.
fn send<W: Write>(start: u32, plots: u64, to: &mut W, sent: &mut u64) -> Result<(), Failure>
    ensures { Putting sent.old (W.contents to.old) (drawn_output start plots) result sent.new (W.contents to.new) }
{
    let mut out = [0u8; saving::MAX_TEXT_BYTES];
    let n = drawing::print(start, plots, &mut out);
    relay::put(to, &out[..n], sent)
}

// What is wrong with a word.
fn tell_fault(to: &impl Eprint, name: &str, most: u64, fault: Fault) -> io::Result<()> {
    match fault {
        Fault::Missing => eprintln!(to; "generate: {name} is missing: generate START PLOTS"),
        Fault::Malformed => eprintln!(to;
            "generate: {name} is no number: digits are wanted, without a leading zero"
        ),
        Fault::TooLarge => eprintln!(to; "generate: {name} is too large: the largest is {most}"),
    }
}

// The two words are read before anything is printed.
fn main(rt: HostRuntime) -> io::Result<()> {
    let start = match short_number_at(&rt, 1) {
        Ok(n) => n,
        Err(fault) => return tell_fault(&rt, "START", u64::from(u32::MAX), fault),
    };
    let plots = match number_at(&rt, 2) {
        Ok(n) => n,
        Err(fault) => return tell_fault(&rt, "PLOTS", stored::MAX_PLOTS as u64, fault),
    };
    if program::has_word(&rt, 3) {
        return eprintln!(rt; "generate: there is a word too many: generate START PLOTS");
    }
    let sent = send(start, plots, &mut rt.stdout(), &mut 0);
    program::tell_failure(&rt, "generate", &sent)
}
