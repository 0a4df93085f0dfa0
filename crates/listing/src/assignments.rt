// The listing of all assignments of a small network, each tested by the definitions. Which of the cheapest is first is
// told by comparing them, and not by when they are met. It uses no code of the engine.
use crate::masks::has;
use crate::small::{CLASSES, PLOTS, Plot, Small};

// A class for each plot by its position, 0 past the last.
pub type Assignment = [usize; PLOTS];

// An assignment that fits, with its cost.
#[derive(Clone, Copy)]
pub struct Costed {
    pub cost: usize,
    pub assignment: Assignment,
}

// What the listing of all assignments finds.
#[derive(Clone, Copy)]
pub struct Listing {
    // how many assignments there are, and how many of those that fit agree with every label
    pub assignments: usize,
    pub solutions: usize,
    // how many solutions give a plot a class
    pub counts: [[usize; CLASSES]; PLOTS],
    // of the cheapest of those that fit the first in order
    pub first: Option<Costed>,
}

impl Listing {
    // The listing of all assignments.
    pub(crate) fn of(small: &Small) -> Listing {
        let plots = small.plots();
        let mut listing = Listing {
            assignments: assignments(plots),
            solutions: 0,
            counts: [[0; CLASSES]; PLOTS],
            first: None,
        };
        for number in 0..listing.assignments {
            let assignment = assignment(plots, number);
            if fits(small, &assignment) {
                listing.add(plots, assignment);
            }
        }
        listing
    }

    // One assignment more that fits. At no cost it agrees with every label, so that it is a solution.
    fn add(&mut self, plots: &[Plot], assignment: Assignment) {
        let cost = cost(plots, &assignment);
        let costed = Costed { cost, assignment };
        if self.first.is_none_or(|first| beats(plots, &costed, &first)) {
            self.first = Some(costed);
        }
        if cost == 0 {
            self.add_solution(&assignment);
        }
    }

    // One solution more: counted at every plot, for the class that it gives the plot.
    fn add_solution(&mut self, assignment: &Assignment) {
        self.solutions = self.solutions.saturating_add(1);
        for (counts, class) in self.counts.iter_mut().zip(assignment) {
            let count = &mut counts[class % CLASSES];
            *count = count.saturating_add(1);
        }
    }
}

// How many assignments there are: so few that no product is cut off.
fn assignments(plots: &[Plot]) -> usize {
    plots.iter().fold(
        1,
        |product: usize, plot| product.saturating_mul(plot.classes),
    )
}

// The assignment of a number: its digits, of which each plot's number of classes is the base.
fn assignment(plots: &[Plot], number: usize) -> Assignment {
    let mut classes = [0; PLOTS];
    let mut rest = number;
    for (class, plot) in classes.iter_mut().zip(plots) {
        *class = rest % plot.classes;
        rest /= plot.classes;
    }
    classes
}

// Whether an assignment fits.
fn fits(small: &Small, assignment: &Assignment) -> bool {
    small
        .plots()
        .iter()
        .zip(assignment)
        .all(|(plot, class)| stands(small, assignment, plot, *class))
}

// Whether the class of a plot is in its domain, and in the row of its parent's class.
fn stands(small: &Small, assignment: &Assignment, plot: &Plot, class: usize) -> bool {
    has(plot.domain, class)
        && match plot.link {
            None => true,
            Some(link) => has(small.row(link.table, assignment[link.parent]), class),
        }
}

// What an assignment costs: the labelled plots that it gives another class.
fn cost(plots: &[Plot], assignment: &Assignment) -> usize {
    plots
        .iter()
        .zip(assignment)
        .filter(|(plot, class)| plot.label.is_some_and(|label| label != **class))
        .count()
}

// Whether an assignment is better than another: it is cheaper, or as cheap and comes before it. This and the two functions below tell the
// order, since it depends on the plots' labels, which no order of the type would know.
fn beats(plots: &[Plot], a: &Costed, b: &Costed) -> bool {
    a.cost < b.cost || a.cost == b.cost && comes_before(plots, &a.assignment, &b.assignment)
}

// Whether one assignment comes before another: classes are compared plot by plot in order of arrival.
fn comes_before(plots: &[Plot], a: &Assignment, b: &Assignment) -> bool {
    for ((plot, c), d) in plots.iter().zip(a).zip(b) {
        if c != d {
            return sooner(plot.label, *c, *d);
        }
    }
    false
}

// Whether one class of a plot comes before another: its label first, then lower classes.
fn sooner(label: Option<usize>, c: usize, d: usize) -> bool {
    label != Some(d) && (label == Some(c) || c < d)
}
