// A test program: relays between files that can be read and written and such that can't, and prints what came of each.
#![tactic(auto)]

use relay::{Failure, Relayed};
use std::fs::{File, OpenOptions};
use std::io;
use std::io::{Read, Stdout, Write};

// Prints how a relay ended, how many bytes were read and how many sent.
fn tell<T: Copy>(mut out: Stdout, what: &str, relayed: Relayed<T>) -> io::Result<()> {
    let ended = match relayed.outcome {
        Ok(_) => "answered",
        Err(Failure::Read(_)) => "a read failed",
        Err(Failure::Write(_)) => "a write failed",
        Err(Failure::Endless) => "it has no end",
    };
    let read = relayed.read;
    let sent = relayed.sent;
    writeln!(out, "{what}: {ended}, read {read}, sent {sent}")
}

// Relays what the lines print.
fn try_relay<R: Read, W: Write>(
    out: Stdout,
    what: &str,
    from: &mut R,
    to: &mut W,
) -> io::Result<()> {
    tell(out, what, relay::relay(from, to))
}

// Relays the text of the book, and prints how many lines were taken too.
fn try_text<R: Read, W: Write>(
    mut out: Stdout,
    what: &str,
    from: &mut R,
    to: &mut W,
) -> io::Result<()> {
    let relayed = relay::relay_text(from, to);
    tell(out, what, relayed)?;
    match relayed.outcome {
        Err(_) => Ok(()),
        Ok(tallies) => {
            let lines = tallies.lines();
            let refused = tallies.refused();
            writeln!(
                out,
                "{what}: {lines} lines taken, {refused} of them refused"
            )
        }
    }
}

// The files are in `data`: a book that is asked, lines that print nothing before the end, and nothing. What is open for the other direction
// alone stands for what is closed: the system refuses both.
fn main(rt: HostRuntime) -> io::Result<()> {
    let mut out = rt.stdout();
    let mut unread = OpenOptions::new().write(true).open(&rt, "/dev/null")?;
    let mut unwritten = File::open(&rt, "/dev/null")?;
    try_relay(out, "closed input", &mut unread, &mut out)?;
    try_relay(out, "folder", &mut File::open(&rt, ".")?, &mut out)?;
    try_relay(
        out,
        "book to closed output",
        &mut File::open(&rt, "book.txt")?,
        &mut unwritten,
    )?;
    try_relay(
        out,
        "silent to closed output",
        &mut File::open(&rt, "silent.txt")?,
        &mut unwritten,
    )?;
    try_relay(out, "empty", &mut File::open(&rt, "empty.txt")?, &mut out)?;
    try_relay(out, "book", &mut File::open(&rt, "book.txt")?, &mut out)?;
    try_text(
        out,
        "text of a folder",
        &mut File::open(&rt, ".")?,
        &mut out,
    )?;
    try_text(
        out,
        "text to closed output",
        &mut File::open(&rt, "book.txt")?,
        &mut unwritten,
    )?;
    try_text(
        out,
        "no text to closed output",
        &mut File::open(&rt, "empty.txt")?,
        &mut unwritten,
    )?;
    try_text(out, "text", &mut File::open(&rt, "book.txt")?, &mut out)
}
