// The program: lines from standard input, and what they print to standard output.
#![tactic(auto)]

use std::io;

// Where there is a word behind the program's name nothing is read. A failure is told on standard error.
fn main(rt: HostRuntime) -> io::Result<()> {
    if program::has_word(&rt, 1) {
        return program::tell_use(&rt, "plotbook", "their answers");
    }
    let relayed = relay::relay(&mut rt.stdin(), &mut rt.stdout());
    program::tell_failure(&rt, "plotbook", &relayed.outcome)
}
