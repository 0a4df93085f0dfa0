// A test program: whole inputs, each relayed to standard output from a reader that gives it in pieces of one size; what its lines print,
// and a line `--` behind it. Standard input has them one behind the other, each after a line with the number of its bytes and the size of
// its pieces.
#![tactic(auto)]

ghost use Rattle.std.specs.Prelude.{◌<◌, ◌≤◌, length};

use std::io;
use std::io::{Read, Stdout, Write};

// The most bytes of standard input that are read.
const MAX_BYTES: u64 = 262144;

// What is left of an input, of which a read gives no more than a piece.
#[derive(Drop)]
struct Pieces<'a> {
    rest: &'a [u8],
    size: usize,
}

impl Read for Pieces<'_> {
    fn read(&mut self, buf: &mut [u8]) -> io::Result<usize> {
        let room = self.size.min(buf.len());
        self.rest.read(&mut buf[..room])
    }
}

// Standard output, of which a write that fails is passed over: what comes behind it is written all the same.
#[derive(Drop)]
struct Undeterred(Stdout);

impl Write for Undeterred {
    fn write(&mut self, buf: &[u8]) -> io::Result<usize> {
        let _ = self.0.write_all(buf);
        Ok(buf.len())
    }

    fn flush(&mut self) -> io::Result<()> {
        Ok(())
    }
}

// A number in base ten at the front, up to a byte that is no digit, and what is behind that byte. Digits behind the sixth are passed over.
fn number_of(s: &[u8]) -> (usize, &[u8])
    ensures within { length result.1.now ≤ length s.now }
    ensures moves { 0 < length s.now → length result.1.now < length s.now }
{
    let end = s
        .iter()
        .position(|b| !b.is_ascii_digit())
        .unwrap_or(s.len());
    let mut value = 0usize;
    for digit in &s[..end] {
        if value < 100000 {
            value = value * 10 + (digit & 15) as usize;
        }
    }
    (value, s.get(end + 1..).unwrap_or(&[]))
}

// The first of the inputs, and those behind it. An input of more bytes than there are ends with them; pieces have at least one byte.
fn first_input(inputs: &[u8]) -> (Pieces<'_>, &[u8])
    ensures { 0 < length inputs.now → length result.1.now < length inputs.now }
{
    let (bytes, behind) = number_of(inputs);
    let (size, behind) = number_of(behind);
    let (rest, others) = behind.split_at(bytes.min(behind.len()));
    let size = size.max(1);
    (Pieces { rest, size }, others)
}

fn main(rt: HostRuntime) -> io::Result<()> {
    let mut all = Vec::new(rt.alloc());
    rt.stdin().take(MAX_BYTES).read_to_end(&mut all)?;
    // from input to input: where the next one begins is what this one says
    let mut inputs = all.as_slice();
    while !inputs.is_empty() {
        let (mut input, others) = first_input(inputs);
        inputs = others;
        relay::relay(&mut input, &mut Undeterred(rt.stdout()));
        let _ = println!(rt; "--");
    }
    Ok(())
}
