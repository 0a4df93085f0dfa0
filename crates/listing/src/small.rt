// A small network: one to three tables, and up to six plots.
ghost use Rattle.std.specs.Prelude.{◌<◌, ◌≤◌, length, IfSome};
ghost use Rattle.std.proofs.Props.{props};
ghost use Rattle.listing.specs.declared.small.TheConstants.{PLOTS, TABLES, CLASSES};

// The most plots and tables that one of them has, and the most classes of a plot.
pub const PLOTS: usize = 6;

pub const TABLES: usize = 3;

pub const CLASSES: usize = 8;

// A table: for each class of the parent, the mask of those that a child may have.
pub type Table = [u8; CLASSES];

// How a plot is bound to an earlier one: that one's position, and the table's number.
#[derive(Clone, Copy)]
pub struct Link {
    pub parent: usize,
    pub table: usize,
    ghost parent_bound: { parent < PLOTS },
    ghost table_bound: { table < TABLES },
}

// A plot: its link, which the first has none of, how many classes it has, the mask of those that are possible, and its label.
#[derive(Clone, Copy)]
pub struct Plot {
    pub link: Option<Link>,
    pub classes: usize,
    pub domain: u8,
    pub label: Option<usize>,
    ghost some_class: { 0 < classes },
    ghost classes_bound: { classes ≤ CLASSES },
    ghost label_bound: { IfSome label (λ class. class < CLASSES) } by { Prim.hlevel props },
}

// A plot of which nothing is said yet.
pub const NEW_PLOT: Plot = Plot {
    link: None,
    classes: 1,
    domain: 0,
    label: None,
};

// A small network: the first of its rows and slots, as many as there are tables and plots. The two counts stand beside arrays, and no lists
// in their place: thousands of networks are made, none has more than the arrays hold, and an array needs no allocation, which could fail.
#[derive(Clone, Copy)]
pub struct Small {
    pub tables: usize,
    pub rows: [Table; TABLES],
    pub plots: usize,
    pub slots: [Plot; PLOTS],
    ghost tables_bound: { tables ≤ TABLES },
    ghost plots_bound: { plots ≤ PLOTS },
}

impl Small {
    // The tables that there are.
    pub(crate) fn tables(&self) -> &[Table] {
        &self.rows[..self.tables]
    }

    // The plots that there are.
    pub(crate) fn plots(&self) -> &[Plot]
        ensures { length result.now ≤ PLOTS }
    {
        &self.slots[..self.plots]
    }

    // The mask of the classes that a child may have below a parent of some class, none where there is no such class.
    pub(crate) fn row(&self, table: usize, class: usize) -> u8
        requires { table < TABLES }
    {
        self.rows[table].get(class).copied().unwrap_or(0)
    }
}
