// The supports of a plot (document 01: counts) and what is believed of it, by messages between plots: up to the root, and
// down the path to the plot (004: equations 1 to 4).
#![tactic(auto)]

ghost use Rattle.std.specs.Prelude.{◌≡◌, true, cond, ◌<◌, length};
ghost use Rattle.semantics.specs.Solutions.{belief};
ghost use Rattle.stored.specs.Values.{as_link};
ghost use Rattle.network.specs.Reach.{in_arrays};
ghost use Rattle.counts.specs.HeldRows.{BitTables, products};
ghost use Rattle.support.specs.Paths.{above_through, leads_to, path_to, descended_through, gathered_through, supports_then_zeros};
ghost use Rattle.support.specs.Beliefs.{as_belief, First};

use network::Sound;

// The position that a plot's link leads to: its parent's, or its own where it is a root.
fn leads_to(link: Option<stored::Link>, i: usize) -> usize
    ensures { result ≡ leads_to (as_link link) i }
{
    link.map_or(i, |above| above.parent)
}

// The plots on the path from a plot to its root.
#[tactic(auto, using(network::proofs::Standing::few))]
fn path_to(s: &Sound, i: usize) -> [bool; stored::MAX_PLOTS]
    ensures { result ≡ path_to s.now.network i }
{
    let mut path = [false; stored::MAX_PLOTS];
    let mut at = i;
    for j in (0..s.network.plots).rev() {
        if j == at {
            path[j] = true;
            at = leads_to(s.network.link_at(j), j);
        }
    }
    path
}

// The spread tables of a network, which are lent: they hold nothing but bits.
#[derive(Clone, Copy)]
struct Spread<'a> {
    tables: &'a [[[u16; stored::MAX_CLASSES]; stored::MAX_CLASSES]; stored::MAX_TABLES],
    ghost bits: { BitTables tables.now },
}

// Equation 4, towards the root, from the newest plot on: what each plot contributes is multiplied into its parent's counts,
// which then are s(x/-Y), for Y the parent's own parent. The plots of a path are left standing, with what their other
// children sent. Past a plot's classes its counts are zero, so all eight can be added up without asking how many it has.
// It stays apart from relabel's pass, which leaves none standing and keeps every message: one over closures would ask and promise more
// than both.
#[tactic(auto, using(network::proofs::Standing::few))]
fn gather(
    s: &Sound,
    path: &[bool; stored::MAX_PLOTS],
    spread: Spread,
    rows: &mut [[u32; stored::MAX_CLASSES]; stored::MAX_PLOTS],
)
    ensures { rows.new ≡ gathered_through s.now.network path.now spread.entry.tables.now rows.old }
{
    for j in (0..s.network.plots).rev() {
        if !path[j] {
            if let Some(stored::Link { parent, table }) = s.network.link_at(j) {
                let message = counts::to_parent(rows[j], spread.tables[table]);
                rows[parent] = counts::product(rows[parent], message);
            }
        }
    }
}

// What comes down a link from above: 1 for each class of a root, which nothing bounds.
fn from_above(
    link: Option<stored::Link>,
    counts: [u32; stored::MAX_CLASSES],
    spread: Spread,
) -> [u32; stored::MAX_CLASSES]
    requires { in_arrays (as_link link) ≡ true }
    ensures { result ≡ above_through (as_link link) counts spread.entry.tables.now }
{
    match link {
        None => [1; stored::MAX_CLASSES],
        Some(stored::Link { table, .. }) => counts::to_child(counts, spread.tables[table]),
    }
}

// The messages away from the root, down a path: each of its plots multiplies its own counts into what comes from above, by equation 4, and by
// equations 1 and 3 at the path's end. What comes out at the end are the counts of the path's last plot.
#[tactic(auto, using(network::proofs::Standing::few))]
fn descend(
    s: &Sound,
    path: &[bool; stored::MAX_PLOTS],
    spread: Spread,
    rows: &[[u32; stored::MAX_CLASSES]; stored::MAX_PLOTS],
) -> [u32; stored::MAX_CLASSES]
    ensures { result ≡ descended_through s.now.network path.now spread.entry.tables.now rows.now s.now.network.plots }
{
    let mut counts = [0u32; stored::MAX_CLASSES];
    for j in 0..s.network.plots {
        if path[j] {
            let above = from_above(s.network.link_at(j), counts, spread);
            counts = counts::product(rows[j], above);
        }
    }
    counts
}

// The supports of the classes of the plot at a position, and zeros past them. This long work stands outside of its callers, which need registers for
// theirs.
#[inline(never)]
#[tactic(auto, using(network::proofs::Standing::few))]
pub fn supports(s: &Sound, i: usize) -> [u32; stored::MAX_CLASSES]
    requires { i < s.now.network.plots }
    ensures { result ≡ supports_then_zeros s.now.network i }
{
    let path = path_to(s, i);
    let tables = counts::spread_tables(&s.network.rows, s.network.tables);
    let spread = Spread { tables: &tables };
    let mut gathered = [[0u32; stored::MAX_CLASSES]; stored::MAX_PLOTS];
    messages::own_rows(s, &mut gathered, counts::own_row);
    gather(s, &path, spread, &mut gathered);
    descend(s, &path, spread, &gathered)
}

// The first class at or past one whose count isn't zero, if there is one.
fn next_supported(counts: &[u32], from: usize) -> Option<usize>
    ensures { First counts.now (length counts.now) from result }
{
    (from..counts.len()).find(|c| 0 < counts[*c])
}

// What is believed of a plot with these counts for its classes: the only class whose count isn't zero.
pub fn believed(counts: &[u32]) -> Option<usize>
    ensures { as_belief result ≡ belief counts.now }
{
    let first = next_supported(counts, 0)?;
    if next_supported(counts, first + 1).is_some() {
        return None;
    }
    Some(first)
}
