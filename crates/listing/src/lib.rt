// Small networks, and the answers of `support` and `relabel` for them, compared with a listing of all assignments: what the programs share
// that draw such networks. The listing works on arrays of tables and plots, and edits make the engine's network of these.
#![tactic(auto)]

mod assignments;
mod build;
mod masks;
mod score;
mod small;

pub use masks::full;
pub use score::{Score, write_score};
pub use small::{CLASSES, Link, NEW_PLOT, PLOTS, Plot, Small, TABLES, Table};
