// U3's networks of one to six plots, as drawn and with every label off: the answers of `support` and `relabel` against a listing of all
// assignments. The listing works on networks that are drawn here; the engine's are made of the lines that `drawing` writes.
#![tactic(auto)]

mod draw;
mod made;

use listing::{PLOTS, Score};
use std::io;

// How many starts there are for each number of plots.
const STARTS: u32 = 200;

// What comes of all of them, with their labels or without.
fn score(labelled: bool) -> Score {
    let mut score = Score::default();
    for plots in 1..=PLOTS {
        for start in 0..STARTS {
            let small = draw::drawn(start, plots, labelled);
            score.compare_with(&small, made::made(start, plots as u64, labelled));
        }
    }
    score
}

fn main(rt: HostRuntime) -> io::Result<()> {
    println!(rt; "as drawn")?;
    listing::write_score(&rt, &score(true))?;
    println!(rt; "every label off")?;
    listing::write_score(&rt, &score(false))
}
