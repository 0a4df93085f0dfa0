// The input of a program, cut into lines as its bytes come in.
#![tactic(auto)]

ghost use Rattle.std.specs.Prelude.{◌≡◌, ◌≤◌, length};
ghost use Rattle.input.specs.Cutting.{kept_bytes, line_end, passed_end, no_line, is_open, read_on};

// The bytes of a line that are kept: one more than a line may have, so that a longer one is seen to be longer.
pub const KEPT_BYTES: usize = 41;

// The line that is coming in: as many of its bytes as are kept. Those past the length belong to no line.
// The fields hold anything, since a run that was handed in may be broken and is then refused: a type that rules that out would ask
// its test of every caller.
#[derive(Clone, Copy)]
pub struct Pending {
    pub bytes: [u8; KEPT_BYTES],
    pub length: usize,
}

// What came of reading on: the line so far, and the place behind the byte 10 that ended it; none where the piece was used up before one
// came.
#[derive(Clone, Copy)]
pub struct Cut {
    pub pending: Pending,
    pub next: Option<usize>,
}

// Where the line that starts at a place of a piece ends: at byte 10, or at the end of the piece.
#[tactic(auto, using(crate::proofs::Ended::line_ends))]
pub fn line_end(piece: &[u8], from: usize) -> usize
    requires { from ≤ length piece.now }
    ensures { result ≡ line_end piece.now from }
{
    scanning::find(piece, from, b'\n')
}

// Where what the engine gets of a line ends: of a longer one it gets one byte more than a line may have.
pub fn passed_end(from: usize, stop: usize) -> usize
    requires { from ≤ stop }
    ensures { result ≡ passed_end from stop }
{
    from + (stop - from).min(KEPT_BYTES)
}

// A line of which no byte has come in.
#[tactic(auto, unfolding(crate::specs::Cutting::no_line))]
pub fn fresh() -> Pending
    ensures { result ≡ no_line }
{
    Pending {
        bytes: [0u8; KEPT_BYTES],
        length: 0,
    }
}

// Whether a struct that was handed in is a line that is coming in: no more bytes than are kept, and none of them byte 10.
pub fn is_open(p: Pending) -> bool
    ensures { result ≡ is_open p }
{
    p.length <= KEPT_BYTES && !p.bytes[..p.length].contains(&b'\n')
}

// Reads on from a place of a piece of the input, to the end of the line or of the piece. A byte that there is no room for is
// passed over.
pub fn read_on(p: Pending, piece: &[u8], from: usize) -> Cut
    requires length_le_kept_bytes { p.length ≤ kept_bytes }
    requires from_in_bounds { from ≤ length piece.now }
    ensures { result ≡ read_on p piece.now from }
{
    let stop = line_end(piece, from);
    let line = &piece[from..stop];
    let kept = line.len().min(KEPT_BYTES - p.length);
    let mut bytes = p.bytes;
    let length = writing::write_bytes(&mut bytes, p.length, &line[..kept]);
    let next = (stop < piece.len()).then_some(stop + 1);
    Cut {
        pending: Pending { bytes, length },
        next,
    }
}
