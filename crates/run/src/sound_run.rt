// A run that is known to go on, and what is done with one.
ghost use Rattle.std.specs.Prelude.{◌≡◌, true, ◌≤◌, length, leb};
ghost use Rattle.semantics.specs.Limits.{min_room};
ghost use Rattle.network.specs.Sound.{whole};
ghost use Rattle.input.specs.Cutting.{kept_bytes, no_end, is_open};
ghost use Rattle.run.specs.Runs.{line_alone, left_over, Printing, TakingLast};

use crate::{Run, Saved};
use input::Pending;
use network::Sound;
use refusals::Refusal;
use taking::{MIN_ROOM, Taken};

// A line without its byte 10 is taken, and what it prints is written at the front of the buffer. The place after it is returned.
fn print_line(s: &mut Sound, line: &[u8], out: &mut [u8]) -> usize
    requires line_len_bound { length line.now ≤ kept_bytes }
    requires line_value { no_end line.now ≡ true }
    requires min_room_in_bounds { min_room ≤ length out.old }
    ensures { Printing (whole s.old) line.now out.old (line_alone (whole s.new) result) out.new }
{
    let mut ended = [b'\n'; input::KEPT_BYTES + 1];
    let n = writing::write_bytes(&mut ended, 0, line);
    let stop = n + 1;
    let taken = taking::take_lines(s, &ended[..stop], out);
    taken.end
}

// What is left of a piece behind the lines that were taken, from a place on, is the line that is coming in, if there is room for one more
// answer: only then is it known that no line ends there. Else it is still to be read. Returned are the line, and the place after what was
// read.
fn left_over(piece: &[u8], next: usize, room: usize) -> (Pending, usize)
    requires { next ≤ length piece.now }
    ensures { result ≡ left_over piece.now next (leb min_room room) }
{
    let fresh = input::fresh();
    if room < MIN_ROOM {
        return (fresh, next);
    }
    let cut = input::read_on(fresh, piece, next);
    (cut.pending, cut.next.unwrap_or(piece.len()))
}

// A run whose state keeps the rules and whose line so far is one: whoever has one needn't test it.
#[derive(Clone, Copy)]
pub struct SoundRun {
    state: Sound,
    pending: Pending,
    ghost line_open: { is_open pending ≡ true },
    // the check tells it of a value, and not of what stands behind a reference
    ghost line_kept: { length pending.bytes ≡ kept_bytes },
}

impl SoundRun {
    ghost use Rattle.std.specs.Prelude.{IfSome, is_some};
    ghost use Rattle.run.specs.Runs.{is_sound, Starting, Feeding, Finishing, FinishingText};
    ghost use Rattle.run.specs.Sound.{whole_run, fed_of};

    // An unused run.
    pub fn new() -> SoundRun
        ensures { Starting (whole_run result) }
    {
        let state = Sound::new();
        let pending = input::fresh();
        SoundRun { state, pending }
    }

    // A run that was handed in, if it can go on. It is laid into its callers: a call between would copy the state twice more.
    #[inline(always)]
    pub fn of(r: Run) -> Option<SoundRun>
        ensures kept { is_some result ≡ is_sound r }
        ensures same { IfSome result (λ s. whole_run s ≡ r) }
    {
        if !input::is_open(r.pending) {
            return None;
        }
        let state = Sound::of(r.state)?;
        let pending = r.pending;
        Some(SoundRun { state, pending })
    }

    // The run, to be handed out.
    pub fn run(&self) -> Run
        ensures { result ≡ whole_run self.now }
    {
        let state = self.state.state();
        let pending = self.pending;
        Run { state, pending }
    }

    // A piece of the input, for any buffer: first the line so far, then the lines behind it, as long as there is room for one more
    // answer, and what is left. What is told is the place of the piece after what was read, and that of the buffer after what was
    // written.
    pub fn feed(&mut self, piece: &[u8], out: &mut [u8]) -> Result<Taken, Refusal>
        ensures { Feeding (whole_run self.old) piece.now out.old (fed_of (whole_run self.new) result) out.new }
    {
        if out.len() < MIN_ROOM {
            return Err(Refusal::ShortBuffer);
        }
        let cut = input::read_on(self.pending, piece, 0);
        let line = cut.pending;
        let Some(from) = cut.next else {
            self.pending = line;
            return Ok(Taken {
                next: piece.len(),
                end: 0,
            });
        };
        let bytes = line.bytes;
        let at = print_line(&mut self.state, &bytes[..line.length], out);
        let behind = taking::take_lines(&mut self.state, &piece[from..], &mut out[at..]);
        let end = at + behind.end;
        let (pending, next) = left_over(piece, from + behind.next, out.len() - end);
        self.pending = pending;
        Ok(Taken { next, end })
    }

    // A last line that no byte 10 ended, if it isn't empty: it is taken, and what it prints is written at the front of the buffer. The
    // place after it is returned.
    fn take_last(&mut self, out: &mut [u8]) -> usize
        requires { min_room ≤ length out.old }
        ensures { TakingLast (whole_run self.old) out.old (line_alone (whole self.new.state) result) out.new }
    {
        let Pending { bytes, length } = self.pending;
        if length == 0 {
            return 0;
        }
        print_line(&mut self.state, &bytes[..length], out)
    }

    // The end of the input, for any buffer: a last line that no byte 10 ended, if it isn't empty, and the tallies.
    pub fn finish(mut self, out: &mut [u8]) -> Result<usize, Refusal>
        ensures { Finishing (whole_run self) out.old result out.new }
    {
        if out.len() < MIN_ROOM {
            return Err(Refusal::ShortBuffer);
        }
        let end = self.take_last(out);
        Ok(answers::write_tallies(out, end, &self.state.notes.tallies))
    }

    // The end of the input where the text of the book is asked for, for any buffer. What a last line answers isn't asked for: it goes
    // into a buffer of its own.
    pub fn finish_text(mut self, out: &mut [u8]) -> Saved
        ensures { FinishingText (whole_run self) out.old result out.new }
    {
        let mut unasked = [0u8; MIN_ROOM];
        self.take_last(&mut unasked);
        let answer = engine::save(self.state.state(), out);
        Saved {
            answer,
            tallies: self.state.notes.tallies,
        }
    }
}
