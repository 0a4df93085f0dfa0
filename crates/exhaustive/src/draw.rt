// Small networks of many shapes, drawn from a generator of numbers.
ghost use Rattle.std.specs.Prelude.{◌<◌, ◌≤◌, max};
ghost use Rattle.listing.specs.declared.small.TheConstants.{PLOTS, TABLES, CLASSES};

use drawing::Generator;
use listing::{CLASSES, Link, NEW_PLOT, PLOTS, Plot, Small, TABLES, Table, full};
use std::array;

// Draws from U3's generator.
#[derive(Drop)]
pub struct Draws {
    generator: Generator,
}

impl Draws {
    // Draws from a start on.
    pub(crate) fn new(start: u32) -> Draws {
        Draws {
            generator: Generator::new(start),
        }
    }

    // A number below n, or 0 where there is none, by one draw all the same.
    fn below(&mut self, n: usize) -> usize
        ensures { result < max 1 n }
    {
        self.generator.draw(n.max(1))
    }

    // A number from 1 to n.
    fn one_to(&mut self, n: usize) -> usize
        ensures lower_bound { 0 < result }
        ensures upper_bound { result ≤ max 1 n }
    {
        1 + self.below(n)
    }

    // A mask of any classes.
    fn mask(&mut self) -> u8 {
        self.below(256) as u8
    }
}

// How many classes the rows of the tables have: few, half of them, most of them, or all.
#[derive(Clone, Copy)]
enum Density {
    Few,
    Half,
    Most,
    All,
}

impl Density {
    // The four in turn.
    fn of(number: usize) -> Density {
        match number % 4 {
            0 => Density::Few,
            1 => Density::Half,
            2 => Density::Most,
            _ => Density::All,
        }
    }

    // A row of a table from two masks.
    fn row(self, a: u8, b: u8) -> u8 {
        match self {
            Density::Few => a & b,
            Density::Half => a,
            Density::Most => a | b,
            Density::All => 255,
        }
    }
}

// What the plots hang below: the one before, the first, or any earlier one.
#[derive(Clone, Copy)]
enum Shape {
    Chain,
    Star,
    Bush,
}

impl Shape {
    // The three in turn.
    fn of(number: usize) -> Shape {
        match number % 3 {
            0 => Shape::Chain,
            1 => Shape::Star,
            _ => Shape::Bush,
        }
    }

    // The parent of a plot past the first, whose position is given with that of any earlier plot.
    fn parent(self, position: usize, earlier: usize) -> usize
        requires { earlier < position }
        ensures { result < position }
    {
        match self {
            Shape::Chain => position - 1,
            Shape::Star => 0,
            Shape::Bush => earlier,
        }
    }
}

// A network whose number says the shape (chains, stars and bushes in turn), how dense its tables are, and whether it is labelled, as four
// of five are: with labels on five plots of six there, two of three plots are labelled in all. All rows and slots are drawn, so that any
// network takes as many draws.
pub(crate) fn drawn(draws: &mut Draws, number: usize) -> Small {
    let tables = draws.one_to(TABLES);
    let plots = how_many_plots(draws);
    let density = Density::of(number / 3);
    // fewer classes where there are many plots, so that no listing is long
    let most = if plots < 5 { CLASSES } else { 4 };
    let rows = array::from_fn(|_| table(draws, density));
    let mut slots = [NEW_PLOT; PLOTS];
    draw_links(draws, &mut slots, Shape::of(number), tables);
    draw_classes(draws, &mut slots, most);
    draw_domains(draws, &mut slots);
    draw_labels(draws, &mut slots, number % 5 != 0);
    Small {
        tables,
        rows,
        plots,
        slots,
    }
}

// No plots in one case of 25, else one to six.
fn how_many_plots(draws: &mut Draws) -> usize
    ensures { result ≤ PLOTS }
{
    match draws.below(25) {
        0 => 0,
        drawn => 1 + drawn % PLOTS,
    }
}

// A table, by two draws for each row.
fn table(draws: &mut Draws, density: Density) -> Table {
    array::from_fn(|_| density.row(draws.mask(), draws.mask()))
}

// The link of every plot, by two draws each, which the first needs no more than the others.
fn draw_links(draws: &mut Draws, plots: &mut [Plot; PLOTS], shape: Shape, tables: usize)
    requires { tables ≤ TABLES }
{
    for (i, plot) in plots.iter_mut().enumerate() {
        let earlier = draws.below(i);
        let table = draws.below(tables);
        if 0 < i {
            let parent = shape.parent(i, earlier);
            plot.link = Some(Link { parent, table });
        }
    }
}

// How many classes each plot has, by a draw each.
fn draw_classes(draws: &mut Draws, plots: &mut [Plot], most: usize)
    requires { most ≤ CLASSES }
{
    for plot in plots.iter_mut() {
        plot.classes = draws.one_to(most);
    }
}

// The domain of every plot, by two draws each: all its classes in two cases of three, else one or more of them.
fn draw_domains(draws: &mut Draws, plots: &mut [Plot]) {
    for plot in plots.iter_mut() {
        let all = full(plot.classes);
        let narrowed = draws.below(3) == 0;
        let some = draws.one_to(usize::from(all)) as u8;
        plot.domain = if narrowed { some } else { all };
    }
}

// The label of every plot, by two draws each: one of its classes in five cases of six where the network is labelled, else none.
fn draw_labels(draws: &mut Draws, plots: &mut [Plot], labelled: bool) {
    for plot in plots.iter_mut() {
        let kept = draws.below(6) != 0;
        let class = draws.below(plot.classes);
        plot.label = (labelled && kept).then_some(class);
    }
}
