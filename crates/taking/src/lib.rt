// Lines for a state that is known to keep the rules: one line, or the lines of a piece of the input, one after the other.
#![tactic(auto)]

ghost use Rattle.std.specs.Prelude.{◌≡◌, ◌≤◌, length};
ghost use Rattle.semantics.specs.Limits.{min_room};
ghost use Rattle.semantics.specs.Engine.{taken, buffer_after};
ghost use Rattle.semantics.specs.Protocol.{read_line};
ghost use Rattle.semantics.specs.Buffers.{written};
ghost use Rattle.network.specs.View.{view_state};
ghost use Rattle.network.specs.Sound.{whole};
ghost use Rattle.performing.specs.Performing.{Performing};
ghost use Rattle.taking.specs.Lines.{struct_taken, LineTaken};
ghost use Rattle.taking.specs.Pieces.{line_prints, TakingLines};

use network::Sound;
use refusals::Refusal;

// The shortest answer buffer that is long enough.
pub const MIN_ROOM: usize = 4096;

// A line is read, and does what it says.
fn obey(s: &mut Sound, line: &[u8], out: &mut [u8]) -> Result<usize, Refusal>
    requires { min_room ≤ length out.old }
    ensures { Performing (whole s.old) (read_line line.now) out.old (whole s.new) result out.new }
{
    performing::perform(s, protocol::read_line(line)?, out)
}

// One line, with room for its answer.
pub fn take_line(s: &mut Sound, line: &[u8], out: &mut [u8]) -> Result<usize, Refusal>
    requires { min_room ≤ length out.old }
    ensures answer { LineTaken (struct_taken (whole s.old) line.now) (taken (view_state (whole s.old)) line.now) (whole s.new) result }
    ensures buffer { out.new ≡ buffer_after out.old (taken (view_state (whole s.old)) line.now).said }
{
    if s.run_over() {
        return Err(Refusal::RunOver);
    }
    s.network.lengths();
    match obey(s, line, out) {
        Err(q) => {
            s.tally(false);
            Err(q)
        }
        Ok(wrote) => {
            s.tally(true);
            Ok(wrote)
        }
    }
}

// One line, with all that it prints at the front of the buffer: its answer, or its refusal's text. How many bytes that is is returned.
fn print_line(s: &mut Sound, line: &[u8], out: &mut [u8]) -> usize
    requires { min_room ≤ length out.old }
    ensures state { whole s.new ≡ struct_taken (whole s.old) line.now }
    ensures wrote { result ≡ length (line_prints (whole s.old) line.now) }
    ensures buffer { out.new ≡ written out.old 0 (line_prints (whole s.old) line.now) }
{
    match take_line(s, line, out) {
        Ok(wrote) => wrote,
        Err(q) => answers::write_refusal(out, 0, refusals::number_of(q)),
    }
}

// What came of the lines of a piece: the place of the piece after them, and that of the buffer after what they print.
#[derive(Clone, Copy)]
pub struct Taken {
    pub next: usize,
    pub end: usize,
}

// The lines that byte 10 ends in a piece of the input, one after the other, as long as the buffer has room for one more answer. The loop goes
// from line to line and not from index to index: where the next one begins is known once this one has ended.
pub fn take_lines(s: &mut Sound, piece: &[u8], out: &mut [u8]) -> Taken
    ensures { TakingLines (whole s.old) piece.now out.old (whole s.new) result out.new }
{
    let mut next = 0;
    let mut end = 0;
    while MIN_ROOM <= out.len() - end {
        let stop = input::line_end(piece, next);
        if piece.len() <= stop {
            break;
        }
        let cut = input::passed_end(next, stop);
        let to = end + MIN_ROOM;
        s.network.lengths();
        end += print_line(s, &piece[next..cut], &mut out[end..to]);
        next = stop + 1;
    }
    Taken { next, end }
}
