// The cheapest relabelling of a network (document 01: the relabel list and its number; 02: U2): least costs up to the root (004: equation
// 5), each in one number with the class that has it, and the classes read down from the root, in order of arrival.
#![tactic(auto)]

ghost use Rattle.std.specs.Prelude.{◌≡◌, true, ◌≤◌, ◌<◌, get_or};
ghost use Rattle.semantics.specs.Limits.{max_tables, max_classes};
ghost use Rattle.semantics.specs.Relabelling.{rank_by, relabelling};
ghost use Rattle.stored.specs.Values.{as_link, as_label};
ghost use Rattle.network.specs.View.{view};
ghost use Rattle.network.specs.Reach.{in_arrays};
ghost use Rattle.messages.specs.Columns.{column_of, Bits};
ghost use Rattle.relabel.specs.Costs.{never_number, together, own_cost, own_costs};
ghost use Rattle.relabel.specs.Keys.{key_in, AreCosts, key_row, bar_of, bars_of, table_bars, all_bars, bars_below, lowered, offered};
ghost use Rattle.relabel.specs.Keys.{folded_offer, all_offers, with_root_offer, totalled_by, class_above, unrank};
ghost use Rattle.relabel.specs.Keys.{key_class, NameClasses, read_to};
ghost use Rattle.relabel.specs.Answer.{by_position, as_relabelled};

use network::Sound;
use std::array;

// The cost that says that a class can't be had, the largest that a key has room for. Other costs stay far below it.
const NEVER: u16 = 4095;

// This many ranks are told apart in a key: it is a cost times this, and a rank below it.
const RANKS: u16 = 16;

// All bits: what bars a key. No key is past it, and its cost is that of a class that can't be had.
const BARRED: u16 = 65535;

// For each table and each class of a child what bars it, beside each class of the parent.
type AllBars = [[[u16; stored::MAX_CLASSES]; stored::MAX_CLASSES]; stored::MAX_TABLES];

// How many labels are to change, and the class of each plot by its position; 0 past the last plot.
#[derive(Clone, Copy)]
pub struct Relabelled {
    pub number: u16,
    pub classes: [u8; stored::MAX_PLOTS],
}

// Two costs together. With one that can't be paid, the sum can't.
fn plus(a: u16, b: u16) -> u16
    ensures { result ≡ together a b }
{
    a.saturating_add(b).min(NEVER)
}

// Where a class stands in a plot's order of preference: its label at 0, each other class one past its number.
fn rank(label: Option<usize>, c: usize) -> u16
    requires { c < max_classes }
    ensures { result ≡ rank_by (as_label label) c }
{
    if label == Some(c) {
        return 0;
    }
    c as u16 + 1
}

// A class with its cost as one number, its key. Of two keys the lesser is that of the cheaper class, and among equally cheap ones that of
// the class of lower rank: so the least key says both what is cheapest and which class is taken.
fn key(cost: u16, label: Option<usize>, c: usize) -> u16
    requires cost_le_never_number { cost ≤ never_number }
    requires c_lt_max_classes { c < max_classes }
    ensures { result ≡ key_in (as_label label) cost c }
{
    cost * RANKS + rank(label, c)
}

// The keys of a plot's classes, by its row of costs.
fn keys(row: [u16; stored::MAX_CLASSES], label: Option<usize>) -> [u16; stored::MAX_CLASSES]
    requires { AreCosts row }
    ensures { result ≡ key_row row (as_label label) }
{
    array::from_fn(|c| key(row[c], label, c))
}

// What bars a key, by the bit of a table, 0 or 1: nothing where it is set, else all bits.
fn bar(bit: u16) -> u16
    requires { bit < 2 }
    ensures { result ≡ bar_of bit }
{
    (1 - bit) * BARRED
}

// What bars the child's class that a column is of, beside each class of the parent.
fn bars_of(column: [u16; stored::MAX_CLASSES]) -> [u16; stored::MAX_CLASSES]
    requires { Bits column }
    ensures { result ≡ bars_of column }
{
    array::from_fn(|b| bar(column[b]))
}

// The same for every class below a table. One function with `counts::spread_table`, over a closure, would have a longer contract than
// both together.
fn table_bars(
    rows: &[u8; stored::ROWS_SIZE],
    table: usize,
) -> [[u16; stored::MAX_CLASSES]; stored::MAX_CLASSES]
    requires { table < max_tables }
    ensures { result ≡ table_bars rows.now table }
{
    array::from_fn(
        |c|
            requires table_lt_max_tables { table < max_tables }
            requires c_lt_max_classes { c < max_classes }
            ensures { result ≡ bars_of (column_of rows.entry.now table c) }
        { bars_of(messages::column_of(rows, table, c)) },
    )
}

// The same for the first n tables. It is made once, since most plots share a table with others. It isn't one function with
// `counts::spread_tables`: shared, it made each C copy 2 KB more.
fn all_bars(rows: &[u8; stored::ROWS_SIZE], tables: usize) -> AllBars
    requires { tables ≤ max_tables }
    ensures { result ≡ all_bars rows.now tables }
{
    let mut bars = [[[0u16; stored::MAX_CLASSES]; stored::MAX_CLASSES]; stored::MAX_TABLES];
    for t in 0..tables {
        bars[t] = table_bars(rows, t);
    }
    bars
}

// What bars the classes below a link. Nothing bars those of a root.
fn bars_below(
    link: Option<stored::Link>,
    bars: &AllBars,
) -> [[u16; stored::MAX_CLASSES]; stored::MAX_CLASSES]
    requires { in_arrays (as_link link) ≡ true }
    ensures { result ≡ bars_below (as_link link) bars.now }
{
    match link {
        None => [[0u16; stored::MAX_CLASSES]; stored::MAX_CLASSES],
        Some(stored::Link { table, .. }) => bars[table],
    }
}

// An offer with one class more: beside each class of the parent the lesser key. Nothing asks whether the class is barred there.
fn with_class(
    offer: [u16; stored::MAX_CLASSES],
    key: u16,
    bars: [u16; stored::MAX_CLASSES],
) -> [u16; stored::MAX_CLASSES]
    ensures { result ≡ lowered offer key bars }
{
    array::from_fn(|b| offer[b].min(key | bars[b]))
}

// Equation 5: a plot's offer to its parent, the least of its keys beside each of the parent's classes. It says what the plot then costs,
// and the class that it takes. All eight classes are looked at: those that the plot doesn't have can't be had at any cost.
fn offer(
    keys: [u16; stored::MAX_CLASSES],
    bars: [[u16; stored::MAX_CLASSES]; stored::MAX_CLASSES],
) -> [u16; stored::MAX_CLASSES]
    ensures { result ≡ offered keys bars }
{
    let mut offer = [BARRED; stored::MAX_CLASSES];
    for c in 0..stored::MAX_CLASSES {
        // not laid in `offer` at once: the checker covers no call whose result takes the place of one of its array arguments
        let lower = with_class(offer, keys[c], bars[c]);
        offer = lower;
    }
    offer
}

// What a plot offers, by its row of costs, its label and its link. A root's offer says the same beside each class.
fn offer_of(
    row: [u16; stored::MAX_CLASSES],
    label: Option<usize>,
    link: Option<stored::Link>,
    bars: &AllBars,
) -> [u16; stored::MAX_CLASSES]
    requires are_costs { AreCosts row }
    requires link_value { in_arrays (as_link link) ≡ true }
    ensures { result ≡ offered (key_row row (as_label label)) (bars_below (as_link link) bars.now) }
{
    offer(keys(row, label), bars_below(link, bars))
}

// A plot's costs with those that a child offers.
fn fold(
    row: [u16; stored::MAX_CLASSES],
    offer: [u16; stored::MAX_CLASSES],
) -> [u16; stored::MAX_CLASSES]
    ensures { result ≡ folded_offer row offer }
{
    array::from_fn(|c| plus(row[c], offer[c] / RANKS))
}

// A plot's own cost for a class: 1 where it is labelled with another. A class outside its domain can't be had.
fn own_cost(domain: u8, label: Option<usize>, c: usize) -> u16
    requires { c < max_classes }
    ensures { result ≡ own_cost domain (as_label label) c }
{
    if !stored::allows(domain, c) {
        return NEVER;
    }
    if stored::agrees(label, c) {
        return 0;
    }
    1
}

// A plot's own costs, class by class.
fn own_row(domain: u8, label: Option<usize>) -> [u16; stored::MAX_CLASSES]
    ensures { result ≡ own_costs domain (as_label label) }
{
    array::from_fn(|c| own_cost(domain, label, c))
}

// The offers towards the root, from the newest plot on. Once its children have made theirs, a plot's costs are those of equation 5: its
// own, and the least of each child's. All offers are kept, so that the way down only reads them.
// It stays apart from support's pass, which keeps no message: this one's are kept of roots too, and are made of rows of costs alone, which
// one over closures would have to ask of every row.
#[tactic(auto, using(network::proofs::Standing::few))]
fn gather(s: &Sound, bars: &AllBars) -> [[u16; stored::MAX_CLASSES]; stored::MAX_PLOTS]
    ensures { result ≡ all_offers s.now.network bars.now }
{
    let mut rows = [[0u16; stored::MAX_CLASSES]; stored::MAX_PLOTS];
    messages::own_rows(s, &mut rows, own_row);
    let mut offers = [[0u16; stored::MAX_CLASSES]; stored::MAX_PLOTS];
    for j in (0..s.network.plots).rev() {
        let link = s.network.link_at(j);
        let offer = offer_of(rows[j], s.network.label_at(j), link, bars);
        offers[j] = offer;
        if let Some(above) = link {
            rows[above.parent] = fold(rows[above.parent], offer);
        }
    }
    offers
}

// A cost with the least that a plot costs, if it is a root.
fn with_root(link: Option<stored::Link>, offer: [u16; stored::MAX_CLASSES], cost: u16) -> u16
    ensures { result ≡ with_root_offer (as_link link) offer cost }
{
    match link {
        None => plus(cost, offer[0] / RANKS),
        Some(_) => cost,
    }
}

// The least cost of all: that of the roots together.
#[tactic(auto, using(network::proofs::Standing::few))]
fn total(s: &Sound, offers: &[[u16; stored::MAX_CLASSES]; stored::MAX_PLOTS]) -> u16
    ensures { result ≡ totalled_by s.now.network offers.now s.now.network.plots 0 }
{
    let mut cost = 0;
    for j in (0..s.network.plots).rev() {
        cost = with_root(s.network.link_at(j), offers[j], cost);
    }
    cost
}

// The class of the parent above a link, by the classes chosen so far. A root offers the same beside each: 0 serves.
fn class_above(link: Option<stored::Link>, classes: &[u8; stored::MAX_PLOTS]) -> usize
    requires { in_arrays (as_link link) ≡ true }
    ensures { result ≡ class_above (as_link link) (λ i. get_or classes.now i 0) }
{
    match link {
        None => 0,
        Some(stored::Link { parent, .. }) => classes[parent] as usize,
    }
}

// The class that stands at a rank.
fn ranked(label: Option<usize>, rank: usize) -> usize
    ensures { result ≡ unrank (as_label label) rank }
{
    match label {
        Some(l) if rank == 0 => l,
        _ => rank.saturating_sub(1),
    }
}

// The class that a key says; 0 where it says that none can be had.
fn class_of(label: Option<usize>, key: u16) -> u8
    requires { key_class (as_label label) key < max_classes }
    ensures { result ≡ key_class (as_label label) key }
{
    if NEVER <= key / RANKS {
        return 0;
    }
    ranked(label, (key % RANKS) as usize) as u8
}

// The choice downwards, in order of arrival: each plot takes the class that it offers beside its parent's.
#[tactic(auto, using(network::proofs::Standing::few))]
fn choose(
    s: &Sound,
    offers: &[[u16; stored::MAX_CLASSES]; stored::MAX_PLOTS],
) -> [u8; stored::MAX_PLOTS]
    requires { NameClasses s.now.network offers.now }
    ensures { result ≡ by_position (read_to s.now.network offers.now s.now.network.plots) }
{
    let mut classes = [0u8; stored::MAX_PLOTS];
    for j in 0..s.network.plots {
        let b = class_above(s.network.link_at(j), &classes);
        classes[j] = class_of(s.network.label_at(j), offers[j][b]);
    }
    classes
}

// The first of the cheapest assignments that fit, in order of preference, with its number, or that none fits. What a plot's id is doesn't
// matter to it, nor how many classes the plot has: its domain is within them.
#[tactic(auto, using(network::proofs::Standing::few))]
pub fn relabelling(s: &Sound) -> Option<Relabelled>
    ensures { result ≡ as_relabelled (relabelling (view s.now.network)) }
{
    let bars = all_bars(&s.network.rows, s.network.tables);
    let offers = gather(s, &bars);
    let number = total(s, &offers);
    if number == NEVER {
        return None;
    }
    Some(Relabelled {
        number,
        classes: choose(s, &offers),
    })
}
