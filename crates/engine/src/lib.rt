// The engine: one line for any state handed in, the end of the input, the book as text, and the counts of a plot. The three demands on it,
// and that the text is read back (02: U1), are theorems about these calls (proofs/).
#![tactic(auto)]

ghost use Rattle.std.specs.Prelude.{◌≡◌, ◌≤◌, length};
ghost use Rattle.semantics.specs.Limits.{min_room};
ghost use Rattle.network.specs.Sound.{whole};
ghost use Rattle.network.specs.Unused.{ZeroRun};
ghost use Rattle.engine.specs.Calls.{untaken_by, Stepping, Ending, SavingNetwork, Saving, SupportsOf};

use network::{Sound, State};
use performing::PlotCounts;
use refusals::Refusal;

// The shortest answer buffer that is long enough.
pub const MIN_ROOM: usize = taking::MIN_ROOM;

// The state after a line, and what the line answers.
#[derive(Clone, Copy)]
pub struct Stepped {
    pub state: State,
    pub answer: Result<usize, Refusal>,
}

// The state of an unused run.
pub fn empty() -> State
    ensures { ZeroRun result }
{
    State::empty()
}

// A line that isn't taken leaves everything as it was.
fn untaken(state: State, q: Refusal) -> Stepped
    ensures { result ≡ untaken_by state q }
{
    Stepped {
        state,
        answer: Err(q),
    }
}

// One line for a state that keeps the rules, with room for its answer.
fn step_on(mut s: Sound, line: &[u8], out: &mut [u8]) -> Stepped
    requires { min_room ≤ length out.old }
    ensures { Stepping (whole s) line.now out.old result out.new }
{
    let answer = taking::take_line(&mut s, line, out);
    let state = s.state();
    Stepped { state, answer }
}

// One line, of any bytes, for any state and any buffer.
pub fn step(s: State, line: &[u8], out: &mut [u8]) -> Stepped
    ensures { Stepping s line.now out.old result out.new }
{
    if out.len() < MIN_ROOM {
        return untaken(s, Refusal::ShortBuffer);
    }
    match Sound::of(s) {
        None => untaken(s, Refusal::BrokenState),
        Some(sound) => step_on(sound, line, out),
    }
}

// The end of the input, for any state and any buffer.
pub fn end(s: State, out: &mut [u8]) -> Result<usize, Refusal>
    ensures { Ending s out.old result out.new }
{
    if out.len() < MIN_ROOM {
        return Err(Refusal::ShortBuffer);
    }
    if !s.holds() {
        return Err(Refusal::BrokenState);
    }
    Ok(answers::write_tallies(out, 0, &s.notes.tallies))
}

// The text of a network that keeps the rules, or 20. A buffer that is too short stays as it was, so nothing is written before it is known that
// the text fits. Where the buffer has room for the longest that is plain; only otherwise is the length worked out, in a pass of its own.
fn save_on(s: &Sound, out: &mut [u8]) -> Result<usize, Refusal>
    ensures { SavingNetwork s.now.network out.old result out.new }
{
    if out.len() < saving::MAX_TEXT_BYTES && out.len() < saving::text_length(s) {
        return Err(Refusal::ShortForText);
    }
    Ok(saving::write_network(out, s))
}

// The book as text, for any state and any buffer. It is no line: nothing is tallied.
pub fn save(state: State, out: &mut [u8]) -> Result<usize, Refusal>
    ensures { Saving state out.old result out.new }
{
    let sound = Sound::of(state).ok_or(Refusal::BrokenState)?;
    save_on(&sound, out)
}

// The counts of the plot with an id, of any bytes, in a state that keeps the rules, and what is believed of it: the same as C's.
fn supports_on(s: &Sound, id: &[u8]) -> Result<PlotCounts, Refusal>
    ensures { SupportsOf (whole s.now) id.now result }
{
    let name = text::read_id(id).ok_or(Refusal::NoPlot)?;
    performing::counts_of(s, name).ok_or(Refusal::NoPlot)
}

// The counts of the plot with an id, of any bytes, for any state, and what is believed of it. It is no line: nothing is tallied.
pub fn supports_of(s: State, id: &[u8]) -> Result<PlotCounts, Refusal>
    ensures { SupportsOf s id.now result }
{
    let sound = Sound::of(s).ok_or(Refusal::BrokenState)?;
    supports_on(&sound, id)
}
