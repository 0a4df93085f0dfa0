// From a reader to a writer: what is read goes to a run, and what that prints is written, or the text of the book alone.
#![tactic(auto)]

ghost use Rattle.std.specs.Prelude.{◌≡◌, ◌≤◌, [], length};
ghost use Rattle.semantics.specs.Limits.{min_room};
ghost use Rattle.semantics.specs.NetworkText.{max_text_bytes};
ghost use Rattle.run.specs.Runs.{prints};
ghost use Rattle.run.specs.Sound.{whole_run};
ghost use Rattle.relay.specs.Sending.{Putting, TakingPiece, TakingAll, PuttingText, Relaying, RelayingText};

use notes::Tallies;
use run::SoundRun;
use std::io;
use std::io::{Read, Write};

// The bytes of a read, and those that are written at once.
const LARGE: usize = 65536;

// Why an input wasn't relayed to its end: a read or a write that failed, with the system's reason, or more reads than can be counted.
#[derive(Clone, Copy)]
pub enum Failure {
    Read(io::Error),
    Write(io::Error),
    Endless,
}

// What came of an input: how many bytes were read and how many sent, and what the end gave, if nothing failed. The bytes of a write that
// failed aren't counted, though some may have gone out.
#[derive(Clone, Copy)]
pub struct Relayed<T> {
    pub read: u64,
    pub sent: u64,
    pub outcome: Result<T, Failure>,
}

// Sends bytes. The count stands beside the writer, and not with it in a struct: one that holds a reference asks every contract for a clause
// more, that it is that reference still.
pub fn put<W: Write>(to: &mut W, bytes: &[u8], sent: &mut u64) -> Result<(), Failure>
    ensures { Putting sent.old (W.contents to.old) bytes.now result sent.new (W.contents to.new) }
{
    match to.write_all(bytes) {
        Err(why) => Err(Failure::Write(why)),
        Ok(()) => {
            *sent = sent.wrapping_add(bytes.len() as u64);
            Ok(())
        }
    }
}

// Feeds a piece of the input, and sends what its lines print, until the piece is used up or a write fails. How much of it is left is known
// once a call has taken its part, so no iterator has the parts.
fn take_piece<W: Write>(
    r: &mut SoundRun,
    piece: &[u8],
    to: &mut W,
    out: &mut [u8],
    sent: &mut u64,
) -> Result<(), Failure>
    requires { min_room ≤ length out.old }
    ensures { TakingPiece (whole_run r.old) piece.now sent.old (W.contents to.old) (whole_run r.new) result sent.new (W.contents to.new) }
{
    let mut rest = piece;
    while !rest.is_empty() {
        let taken = r.feed(rest, out).unwrap();
        put(to, &out[..taken.end], sent)?;
        rest = &rest[taken.next..];
    }
    Ok(())
}

// Reads piece after piece, and sends what they print, until the input ends or a read or a write fails. After that nothing more is sent:
// what follows a gap would mislead.
fn take_all<R: Read, W: Write>(
    from: &mut R,
    to: &mut W,
    out: &mut [u8],
    read: &mut u64,
    sent: &mut u64,
) -> Result<SoundRun, Failure>
    requires { min_room ≤ length out.old }
    ensures { TakingAll read.old sent.old (R.remaining from.old) (W.contents to.old) result read.new sent.new
        (R.remaining from.new) (W.contents to.new) }
{
    let mut input = [0u8; LARGE];
    let mut r = SoundRun::new();
    // more reads than any input takes
    for _ in 0..u64::MAX {
        let n = match from.read(&mut input) {
            Err(why) => return Err(Failure::Read(why)),
            Ok(0) => return Ok(r),
            Ok(n) => n,
        };
        *read = read.wrapping_add(n as u64);
        take_piece(&mut r, &input[..n], to, out, sent)?;
    }
    Err(Failure::Endless)
}

// Sends what the end of the input prints: the answer to a last line that no byte 10 ended, and the tallies.
fn send_end<W: Write>(
    r: SoundRun,
    to: &mut W,
    out: &mut [u8],
    sent: &mut u64,
) -> Result<(), Failure>
    requires { min_room ≤ length out.old }
    ensures { Putting sent.old (W.contents to.old) (prints (whole_run r) []) result sent.new (W.contents to.new) }
{
    let n = r.finish(out).unwrap();
    put(to, &out[..n], sent)
}

// Sends the text of the book that the whole input makes, and tells the tallies of its lines.
fn send_text<W: Write>(
    r: SoundRun,
    to: &mut W,
    out: &mut [u8],
    sent: &mut u64,
) -> Result<Tallies, Failure>
    requires { max_text_bytes ≤ length out.old }
    ensures { PuttingText (whole_run r) sent.old (W.contents to.old) result sent.new (W.contents to.new) }
{
    let saved = r.finish_text(out);
    let length = saved.answer.unwrap();
    put(to, &out[..length], sent)?;
    Ok(saved.tallies)
}

// Relays an input: what its lines print, and then its end, which is told only if nothing failed: tallies say that nothing is missing.
pub fn relay<R: Read, W: Write>(from: &mut R, to: &mut W) -> Relayed<()>
    ensures { Relaying (R.remaining from.old) (R.remaining from.new) (W.contents to.old) (W.contents to.new) result }
{
    let mut out = [0u8; LARGE];
    let (mut read, mut sent) = (0, 0);
    let outcome = match take_all(from, to, &mut out, &mut read, &mut sent) {
        Err(failure) => Err(failure),
        Ok(r) => send_end(r, to, &mut out, &mut sent),
    };
    Relayed {
        read,
        sent,
        outcome,
    }
}

// Relays the text of the book that an input makes, and tells the tallies of its lines: only if nothing failed, as a text that lacks lines
// would mislead. What the lines print isn't asked for. It stays apart from `relay`: one function over the call behind the reads would promise of a
// closure what these two say in a line each.
pub fn relay_text<R: Read, W: Write>(from: &mut R, to: &mut W) -> Relayed<Tallies>
    ensures { RelayingText (R.remaining from.old) (R.remaining from.new) (W.contents to.old) (W.contents to.new) result }
{
    let mut out = [0u8; LARGE];
    let (mut read, mut sent, mut unasked) = (0, 0, 0);
    let outcome = match take_all(from, &mut io::sink(), &mut out, &mut read, &mut unasked) {
        Err(failure) => Err(failure),
        Ok(r) => send_text(r, to, &mut out, &mut sent),
    };
    Relayed {
        read,
        sent,
        outcome,
    }
}
