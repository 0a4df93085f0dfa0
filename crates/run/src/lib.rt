// A run of a program: pieces of the input go in, what the lines print comes out, and at the end the tallies, or the text of the book.
#![tactic(auto)]

mod sound_run;

ghost use Rattle.std.specs.Prelude.{◌≡◌};
ghost use Rattle.run.specs.Runs.{Starting, unfed, Feeding, Finishing, FinishingText};
ghost use Rattle.run.specs.Sound.{fed_of};

use refusals::Refusal;
pub use sound_run::SoundRun;
use taking::{MIN_ROOM, Taken};

// The state, and the line that is coming in.
#[derive(Clone, Copy)]
pub struct Run {
    pub state: network::State,
    pub pending: input::Pending,
}

// What came of a piece of the input: the run, what is answered, and the place of the piece after what was read.
#[derive(Clone, Copy)]
pub struct Fed {
    pub run: Run,
    pub answer: Result<usize, Refusal>,
    pub next: usize,
}

// What came of the end of the input where the text of the book was asked for: what is answered, and the tallies of all
// lines.
#[derive(Clone, Copy)]
pub struct Saved {
    pub answer: Result<usize, Refusal>,
    pub tallies: notes::Tallies,
}

// An unused run.
pub fn start() -> Run
    ensures { Starting result }
{
    SoundRun::new().run()
}

// A call that is refused leaves everything as it was.
fn refuse(r: Run, q: Refusal) -> Fed
    ensures { result ≡ unfed r q }
{
    Fed {
        run: r,
        answer: Err(q),
        next: 0,
    }
}

// What a call came to, with the run that it left.
fn told(r: Run, fed: Result<Taken, Refusal>) -> Fed
    ensures { result ≡ fed_of r fed }
{
    match fed {
        Ok(taken) => Fed {
            run: r,
            answer: Ok(taken.end),
            next: taken.next,
        },
        Err(q) => refuse(r, q),
    }
}

// A piece of the input, for any run and any buffer. Lines are taken as long as there is room for one more answer; what is left from the
// place that is returned on is to be handed in again.
pub fn feed(r: Run, piece: &[u8], out: &mut [u8]) -> Fed
    ensures { Feeding r piece.now out.old result out.new }
{
    if out.len() < MIN_ROOM {
        return refuse(r, Refusal::ShortBuffer);
    }
    match SoundRun::of(r) {
        None => refuse(r, Refusal::BrokenState),
        Some(mut s) => {
            let fed = s.feed(piece, out);
            told(s.run(), fed)
        }
    }
}

// The end of the input, for any run and any buffer: a last line that no byte 10 ended, if it isn't empty, and the tallies.
pub fn finish(r: Run, out: &mut [u8]) -> Result<usize, Refusal>
    ensures { Finishing r out.old result out.new }
{
    if out.len() < MIN_ROOM {
        return Err(Refusal::ShortBuffer);
    }
    SoundRun::of(r).ok_or(Refusal::BrokenState)?.finish(out)
}

// The end of the input where the text of the book is asked for, for any run and any buffer.
pub fn finish_text(r: Run, out: &mut [u8]) -> Saved
    ensures { FinishingText r out.old result out.new }
{
    match SoundRun::of(r) {
        None => Saved {
            answer: Err(Refusal::BrokenState),
            tallies: r.state.notes.tallies,
        },
        Some(s) => s.finish_text(out),
    }
}
