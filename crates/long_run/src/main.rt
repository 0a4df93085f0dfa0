// Hands the engine a million lines one after the other, accepted and refused ones, and then ten more, which get 19 each, and prints what
// comes of the last of the million, of those behind them and of the end.
#![tactic(auto)]

mod lines;

use lines::line;
use refusals::Refusal;
use std::io;

// How many lines are handed over. They are numbered from 1.
const LINES: usize = 1000010;

// The number of the first line of which is printed what comes of it.
const FIRST_SHOWN: usize = 999991;

// Prints what a call said, how many bytes it wrote or the number of its refusal, and its text.
fn show(to: &impl Print, answer: Result<usize, Refusal>, out: &[u8]) -> io::Result<()> {
    match answer {
        Ok(n) => {
            println!(to; "wrote {n}")?;
            match out.get(..n) {
                Some(text) => to.write_all(text),
                None => println!(to; "PAST THE BUFFER"),
            }
        }
        Err(q) => println!(to; "refused {}", refusals::number_of(q)),
    }
}

// After the lines it prints what the end says, the counts of the root's three classes, and the sum of what all lines returned.
fn main(rt: HostRuntime) -> io::Result<()> {
    let mut out = [0; engine::MIN_ROOM];
    let mut state = engine::empty();
    let mut sum: usize = 0;
    for number in 1..=LINES {
        let line = line(number);
        let stepped = engine::step(state, line.as_bytes(), &mut out);
        state = stepped.state;
        let answer = stepped.answer;
        sum = sum.wrapping_add(answer.unwrap_or_else(|q| refusals::number_of(q) as usize));
        if FIRST_SHOWN <= number {
            print!(rt; "{number} {line}: ")?;
            show(&rt, answer, &out)?;
        }
    }
    print!(rt; "end: ")?;
    let answer = engine::end(state, &mut out);
    show(&rt, answer, &out)?;
    match engine::supports_of(state, b"A") {
        Ok(found) => {
            let counts = found.counts;
            println!(rt; "counts: {} {} {}", counts[0], counts[1], counts[2])?;
        }
        Err(q) => println!(rt; "counts refused {}", refusals::number_of(q))?,
    }
    println!(rt; "sum of lengths and refusals: {sum}")
}
