// The answers of `support` and `relabel` for a network, compared with the listing.
ghost use Rattle.std.specs.Prelude.{◌<◌};

use crate::assignments::{Assignment, Listing};
use crate::build::built;
use crate::small::{PLOTS, Plot, Small};
use network::{Sound, State};
use std::io::Print;
use std::{fmt, io};

// How many answers were compared, and how many were different.
#[derive(Clone, Copy, Default)]
struct Compared {
    all: usize,
    different: usize,
}

impl Compared {
    // One comparison more.
    fn add(&mut self, same: bool) {
        self.all = self.all.saturating_add(1);
        self.different = self.different.saturating_add(usize::from(!same));
    }
}

// Both numbers, as the report has them.
impl fmt::Display for Compared {
    fn fmt<W: fmt::Write>(&self, f: &mut fmt::Formatter<W>) -> fmt::Result {
        write!(f, "{}, different {}", self.all, self.different)
    }
}

// What came of all networks so far. No sum comes near the largest number, where it would be held.
#[derive(Clone, Copy, Default)]
pub struct Score {
    networks: Compared,
    counts: Compared,
    beliefs: Compared,
    relabellings: Compared,
    // networks by sort: no assignment fits, some fit but none is a solution, there are solutions
    clashes: usize,
    unsolved: usize,
    solved: usize,
    // how many assignments were listed
    assignments: usize,
    // of the answers: the sum of all counts, the plots of which a class is believed, the labels to change, and the sum of
    // the classes chosen
    support: usize,
    believed: usize,
    changes: usize,
    chosen: usize,
}

impl Score {
    // A small network is made by edits, and compared.
    pub fn compare(&mut self, small: &Small) {
        self.compare_with(small, built(small));
    }

    // A small network, compared with the state that was made of it, if that keeps the rules.
    pub fn compare_with(&mut self, small: &Small, made: Option<State>) {
        match made.and_then(Sound::of) {
            Some(sound) => self.compare_network(small, &sound),
            None => self.networks.add(false),
        }
    }

    // Everything that is asked of a network that keeps the rules, compared with the listing.
    fn compare_network(&mut self, small: &Small, s: &Sound) {
        let plots = small.plots();
        if s.network.plots != plots.len() {
            self.networks.add(false);
            return;
        }
        self.networks.add(true);
        let listing = Listing::of(small);
        self.add_listing(&listing);
        for (i, plot) in plots.iter().enumerate() {
            self.compare_plot(plot, &listing, s, i);
        }
        self.compare_relabelling(&listing, s);
    }

    // One network more of its sort.
    fn add_listing(&mut self, listing: &Listing) {
        self.assignments = self.assignments.saturating_add(listing.assignments);
        let sort = if listing.first.is_none() {
            &mut self.clashes
        } else if listing.solutions == 0 {
            &mut self.unsolved
        } else {
            &mut self.solved
        };
        *sort = sort.saturating_add(1);
    }

    // The eight counts and the belief of the plot at a position, compared: counts past the plot's classes are to be 0.
    fn compare_plot(&mut self, plot: &Plot, listing: &Listing, s: &Sound, i: usize)
        requires i_lt_plots { i < s.now.network.plots }
        requires i_bound { i < PLOTS }
    {
        let counts = support::supports(s, i);
        for (count, listed) in counts.iter().zip(&listing.counts[i]) {
            self.counts.add(*count as usize == *listed);
            self.support = self.support.saturating_add(*count as usize);
        }
        let belief = support::believed(&counts[..plot.classes]);
        self.beliefs.add(belief == class_of_all(listing, i));
        self.believed = self.believed.saturating_add(usize::from(belief.is_some()));
    }

    // The relabelling, compared: whether there is one, its number, and the class of every plot.
    fn compare_relabelling(&mut self, listing: &Listing, s: &Sound) {
        match (relabel::relabelling(s), listing.first) {
            (Some(found), Some(first)) => {
                let same = found.number as usize == first.cost
                    && same_classes(&found.classes, &first.assignment);
                self.relabellings.add(same);
                self.changes = self.changes.saturating_add(usize::from(found.number));
                for class in found.classes {
                    self.chosen = self.chosen.saturating_add(usize::from(class));
                }
            }
            (None, None) => self.relabellings.add(true),
            _ => self.relabellings.add(false),
        }
    }
}

// The class that every solution gives the plot at a position, where there are solutions.
fn class_of_all(listing: &Listing, i: usize) -> Option<usize>
    requires { i < PLOTS }
{
    if listing.solutions == 0 {
        return None;
    }
    listing.counts[i]
        .iter()
        .position(|count| *count == listing.solutions)
}

// Whether the classes by position are those of an assignment, and 0 past its plots.
fn same_classes(classes: &[u8; stored::MAX_PLOTS], assignment: &Assignment) -> bool {
    let (front, past) = classes.split_at(PLOTS);
    front
        .iter()
        .zip(assignment)
        .all(|(class, listed)| usize::from(*class) == *listed)
        && past.iter().all(|class| *class == 0)
}

// The report: how many answers were compared and how many were different, and sums of what was found.
pub fn write_score(to: &impl Print, score: &Score) -> io::Result<()> {
    println!(to; "networks {}", score.networks)?;
    println!(to; "no assignment fits {}", score.clashes)?;
    println!(to; "some fit, no solution {}", score.unsolved)?;
    println!(to; "with solutions {}", score.solved)?;
    println!(to; "assignments listed {}", score.assignments)?;
    println!(to; "counts {}", score.counts)?;
    println!(to; "sum of counts {}", score.support)?;
    println!(to; "beliefs {}", score.beliefs)?;
    println!(to; "plots believed {}", score.believed)?;
    println!(to; "relabellings {}", score.relabellings)?;
    println!(to; "labels to change {}", score.changes)?;
    println!(to; "sum of classes chosen {}", score.chosen)
}
