// The program: lines from standard input, and the text of the book that they make to standard output.
#![tactic(auto)]

use std::io;

// The text says nothing of lines that left no trace in the book, so standard error does.
fn tell_lines(to: &impl Eprint, t: notes::Tallies) -> io::Result<()> {
    let refused = t.refused();
    if refused != 0 {
        eprintln!(to;
            "booktext: lines that were refused and are not in the text: {refused} (plotbook says which and why)"
        )?;
    }
    if notes::MAX_LINES <= t.lines() {
        eprintln!(to;
            "booktext: a million lines were taken, and lines after the millionth are not in the text"
        )?;
    }
    Ok(())
}

// Where there is a word behind the program's name nothing is read. A failure is told on standard error, and no text is printed then.
fn main(rt: HostRuntime) -> io::Result<()> {
    if program::has_word(&rt, 1) {
        return program::tell_use(&rt, "booktext", "the text of their book");
    }
    let relayed = relay::relay_text(&mut rt.stdin(), &mut rt.stdout());
    match relayed.outcome {
        Ok(tallies) => tell_lines(&rt, tallies),
        failed => program::tell_failure(&rt, "booktext", &failed),
    }
}
