// A test program: whole inputs, parted by byte 0. Of each the text of the book that it makes, and whether that text, fed to another run,
// makes itself with no line refused: a line `same` or `DIFFERENT`, and a line `--` behind it.
#![tactic(auto)]

use relay::Failure;
use std::io;
use std::io::{Print, Read};

// The most bytes of standard input that are read.
const MAX_BYTES: u64 = 262144;

// The bytes of the buffer that a text is written to: more than any text has. They aren't allocated, so once the input is read no
// memory can be lacking.
const ROOM: usize = 16384;

// The text of the book that an input makes, which is written to the front of a buffer, and how many of its lines were refused.
fn saved<'a>(mut input: &[u8], buf: &'a mut [u8]) -> io::Result<(&'a [u8], u64)> {
    let mut rest = &mut buf[..];
    let relayed = relay::relay_text(&mut input, &mut rest);
    match relayed.outcome {
        Ok(tallies) => {
            // no contract says that what went out is no more than the buffer has
            let length = (relayed.sent as usize).min(buf.len());
            Ok((&buf[..length], tallies.refused()))
        }
        Err(Failure::Read(why) | Failure::Write(why)) => Err(why),
        Err(Failure::Endless) => Err(io::Error::from(io::ErrorKind::FileTooLarge)),
    }
}

// The inputs stand in standard input one behind the other. A byte 0 behind the last parts it from nothing.
fn main(rt: HostRuntime) -> io::Result<()> {
    let mut all = Vec::new(rt.alloc());
    rt.stdin().take(MAX_BYTES).read_to_end(&mut all)?;
    if all.is_empty() {
        return Ok(());
    }
    let inputs = all.strip_suffix(b"\0").unwrap_or(&all);
    let (mut first, mut second) = ([0u8; ROOM], [0u8; ROOM]);
    for input in inputs.split(|b| *b == 0) {
        let (text, _) = saved(input, &mut first)?;
        rt.write_all(text)?;
        let (again, refusals) = saved(text, &mut second)?;
        let same = refusals == 0 && again == text;
        println!(rt; "{}", if same { "same" } else { "DIFFERENT" })?;
        println!(rt; "--")?;
    }
    Ok(())
}
