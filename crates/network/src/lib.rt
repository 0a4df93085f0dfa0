// The network (document 01: the book) and the state as structs of flat arrays: which of them keep the rules, where an id
// stands, and the state of an unused run.
#![tactic(auto)]

mod sound;

ghost use Rattle.std.specs.Prelude.{◌≡◌, true, ◌≤◌, ◌<◌, length};
ghost use Rattle.semantics.specs.Basics.{every};
ghost use Rattle.semantics.specs.Limits.{max_tables, max_plots, max_classes};
ghost use Rattle.semantics.specs.Rules.{is_table, link_holds, classes_hold, domain_holds, label_holds, plots_hold, network_holds};
ghost use Rattle.semantics.specs.Engine.{holds};
ghost use Rattle.text.specs.Ids.{slot_of, id_bytes};
ghost use Rattle.stored.specs.Values.{as_link, as_label, link_at, classes_at, domain_at, label_at, slot_at};
ghost use Rattle.network.specs.View.{Lengths, tables_of, plots_of, view, view_state};
ghost use Rattle.network.specs.Found.{lookup, id_holds, bytes_hold};
ghost use Rattle.network.specs.Marks.{id_place, Marked};
ghost use Rattle.network.specs.Unused.{ZeroRun};

use notes::Notes;
pub use sound::Sound;

// The tables and the plots, both in order of arrival, in flat arrays, a form that the project's scope names: the memory is fixed. What
// stands past the counts belongs to nothing.
#[derive(Clone, Copy, PartialEq, Eq)]
pub struct Network {
    // how many tables stand, and their rows, eight to a table
    pub tables: usize,
    pub rows: [u8; stored::ROWS_SIZE],
    // how many plots stand, and what each is, by its position
    pub plots: usize,
    // a slot to each, padded with zeros
    pub ids: [u8; stored::IDS_SIZE],
    // the parent's position and the table, each stored plus one, so that 0 is none
    pub parents: [u8; stored::MAX_PLOTS],
    pub through: [u8; stored::MAX_PLOTS],
    // how many classes a plot has (k), and the mask of those still possible (its sighting)
    pub classes: [u8; stored::MAX_PLOTS],
    pub domains: [u8; stored::MAX_PLOTS],
    // the label's class, stored plus one, so that 0 is none
    pub labels: [u8; stored::MAX_PLOTS],
}

// The network, and what is kept beside it.
#[derive(Clone, Copy)]
pub struct State {
    pub network: Network,
    pub notes: Notes,
}

// The rule of a link, for the plot at a position and n tables: the first plot alone is a root, a later one has an
// earlier parent and a table that stands.
fn link_holds(tables: usize, i: usize, link: Option<stored::Link>) -> bool
    ensures { result ≡ link_holds tables i (as_link link) }
{
    match link {
        None => i == 0,
        Some(stored::Link { parent, table }) => parent < i && table < tables,
    }
}

// Nothing has to be tested of tables: what stands there are bytes, and any eight of them are the rows of one.
fn tables_hold(rows: [u8; stored::ROWS_SIZE], tables: usize)
    requires { tables ≤ max_tables }
    ensures { every is_table (tables_of rows tables) ≡ true }
{}

// An array of a byte to a plot has one for each plot that may stand.
fn is_whole(bytes: &[u8; stored::MAX_PLOTS])
    ensures { length bytes.now ≡ max_plots }
{}

// One to eight classes.
fn classes_hold(k: usize) -> bool
    ensures { result ≡ classes_hold k }
{
    1 <= k && k <= stored::MAX_CLASSES
}

// One or more of a plot's k classes: no bit at k or past it.
fn domain_holds(k: usize, mask: u8) -> bool
    requires { k ≤ max_classes }
    ensures { result ≡ domain_holds k mask }
{
    1 <= mask && (mask as u16) >> k == 0
}

// None, or one of a plot's k classes.
fn label_holds(k: usize, label: Option<usize>) -> bool
    ensures { result ≡ label_holds k (as_label label) }
{
    match label {
        None => true,
        Some(c) => c < k,
    }
}

// How many places there are for the marks of ids: few ids out of 128 share one.
const PLACES: usize = 881;

// The place of an id's mark.
fn place_of(id: text::Id) -> usize
    ensures { result ≡ id_place id }
{
    (id.low as usize % PLACES + id.high as usize % PLACES) % PLACES
}

impl Network {
    // How long the arrays are, for proofs: the check tells it of an array, and of the first four that stand behind a reference.
    pub fn lengths(&self)
        ensures { Lengths self.now }
    {
        is_whole(&self.classes);
        is_whole(&self.domains);
        is_whole(&self.labels);
    }

    // The id of the plot at a position.
    pub fn id_at(&self, i: usize) -> text::Id
        requires { i < max_plots }
        ensures { slot_of result ≡ slot_at self.now.ids i }
    {
        text::id_at(&self.ids, i * text::SLOT_BYTES)
    }

    // How the plot at a position is bound.
    pub fn link_at(&self, i: usize) -> Option<stored::Link>
        requires { i < max_plots }
        ensures { as_link result ≡ link_at self.now.parents self.now.through i }
    {
        stored::link_of(self.parents[i], self.through[i])
    }

    // How many classes the plot at a position has.
    pub fn classes_at(&self, i: usize) -> usize
        requires { i < max_plots }
        ensures { result ≡ classes_at self.now.classes i }
    {
        self.classes[i] as usize
    }

    // The mask of the classes still possible for the plot at a position.
    pub fn domain_at(&self, i: usize) -> u8
        requires { i < max_plots }
        ensures { result ≡ domain_at self.now.domains i }
    {
        self.domains[i]
    }

    // The label of the plot at a position.
    pub fn label_at(&self, i: usize) -> Option<usize>
        requires { i < max_plots }
        ensures { as_label result ≡ label_at self.now.labels i }
    {
        stored::label_of(self.labels[i])
    }

    // Where an id stands among the first n plots: one pass, from the newest on. It stands outside of its callers, whose numbers would take the
    // registers that it needs.
    #[inline(never)]
    fn find_among(&self, plots: usize, id: text::Id) -> Option<usize>
        requires { plots ≤ max_plots }
        ensures { result ≡ lookup (id_bytes id) self.now.ids plots }
    {
        for i in (0..plots).rev() {
            if text::same_id(id, &self.ids, i * text::SLOT_BYTES) {
                return Some(i);
            }
        }
        None
    }

    // Where an id stands.
    pub fn find(&self, id: text::Id) -> Option<usize>
        requires { self.now.plots ≤ max_plots }
        ensures { result ≡ lookup (id_bytes id) self.now.ids self.now.plots }
    {
        self.find_among(self.plots, id)
    }

    // Whether an id is well formed and none of the first n plots', whose places are marked: only one whose own place is marked is
    // compared with theirs.
    fn id_holds(&self, plots: usize, id: text::Id, seen: &[bool; PLACES]) -> bool
        requires plots_le_max_plots { plots ≤ max_plots }
        requires marked { Marked self.now.ids plots seen.now }
        ensures { result ≡ id_holds (id_bytes id) self.now.ids plots }
    {
        if !text::is_id(id) {
            return false;
        }
        if !seen[place_of(id)] {
            return true;
        }
        self.find_among(plots, id).is_none()
    }

    // The rules of what a plot's bytes say, for the plot at a position.
    fn bytes_hold(&self, i: usize) -> bool
        requires { i < max_plots }
        ensures { result ≡ bytes_hold self.now i }
    {
        let k = self.classes_at(i);
        link_holds(self.tables, i, self.link_at(i))
            && classes_hold(k)
            && domain_holds(k, self.domains[i])
            && label_holds(k, self.label_at(i))
    }

    // The rules of the plots, from the oldest on.
    fn plots_hold(&self) -> bool
        requires { self.now.plots ≤ max_plots }
        ensures { result ≡ plots_hold self.now.tables (plots_of self.now self.now.plots) }
    {
        let mut seen = [false; PLACES];
        for i in 0..self.plots {
            if !self.bytes_hold(i) {
                return false;
            }
            let id = self.id_at(i);
            if !self.id_holds(i, id, &seen) {
                return false;
            }
            seen[place_of(id)] = true;
        }
        true
    }

    // The rules of a network.
    fn holds(&self) -> bool
        ensures { result ≡ network_holds (view self.now) }
    {
        if stored::MAX_TABLES < self.tables {
            return false;
        }
        if stored::MAX_PLOTS < self.plots {
            return false;
        }
        let rows = self.rows;
        tables_hold(rows, self.tables);
        self.plots_hold()
    }
}

impl State {
    // The state of an unused run.
    pub fn empty() -> State
        ensures { ZeroRun result }
    {
        State {
            network: Network {
                tables: 0,
                rows: [0u8; stored::ROWS_SIZE],
                plots: 0,
                ids: [0u8; stored::IDS_SIZE],
                parents: [0u8; stored::MAX_PLOTS],
                through: [0u8; stored::MAX_PLOTS],
                classes: [0u8; stored::MAX_PLOTS],
                domains: [0u8; stored::MAX_PLOTS],
                labels: [0u8; stored::MAX_PLOTS],
            },
            notes: Notes::unused(),
        }
    }

    // The rules of a state, for whatever the struct holds.
    pub fn holds(&self) -> bool
        ensures { result ≡ holds (view_state self.now) }
    {
        self.network.holds() && self.notes.holds()
    }
}
