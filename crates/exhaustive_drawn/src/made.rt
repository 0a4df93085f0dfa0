// The engine's network, made of the lines that `drawing` writes.
use network::State;

// One line more, if it is accepted.
fn stepped(state: State, line: &[u8]) -> Option<State> {
    let mut out = [0u8; engine::MIN_ROOM];
    let stepped = engine::step(state, line, &mut out);
    stepped.answer.ok().map(|_| stepped.state)
}

// The state that the lines of a text make, without its L lines if it is to have no labels; nothing if one of them is refused.
fn read(text: &[u8], labelled: bool) -> Option<State> {
    let mut state = engine::empty();
    for line in text.strip_suffix(b"\n")?.split(|b| *b == b'\n') {
        if labelled || !line.starts_with(b"L") {
            state = stepped(state, line)?;
        }
    }
    Some(state)
}

// The state of a start and a number of plots.
pub(crate) fn made(start: u32, plots: u64, labelled: bool) -> Option<State> {
    let mut text = [0u8; saving::MAX_TEXT_BYTES];
    let n = drawing::generate(start, plots, &mut text).ok()?;
    read(text.get(..n)?, labelled)
}
