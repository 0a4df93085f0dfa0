// Small networks by the thousand, of many shapes: the answers of `support` and `relabel` against a listing of all assignments.
#![tactic(auto)]

mod draw;

use draw::{Draws, drawn};
use listing::Score;
use std::io;

// How many networks are made.
const NETWORKS: usize = 3000;

fn main(rt: HostRuntime) -> io::Result<()> {
    let mut draws = Draws::new(1);
    let mut score = Score::default();
    for number in 0..NETWORKS {
        score.compare(&drawn(&mut draws, number));
    }
    listing::write_score(&rt, &score)
}
