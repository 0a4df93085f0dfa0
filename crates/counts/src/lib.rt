// The counts of a plot's classes on the way to its supports: its own, what a neighbour contributes to them through a table whose bits are
// spread (004: equation 2), and products. What comes out is held at the largest count.
#![tactic(auto)]

ghost use Rattle.std.specs.Prelude.{◌≡◌, ℕ, ◌+◌, ◌*◌, ◌≤◌, ◌<◌, get_or};
ghost use Rattle.semantics.specs.Limits.{max_tables, max_classes, max_count};
ghost use Rattle.semantics.specs.Solutions.{held};
ghost use Rattle.semantics.specs.Messages.{held_times};
ghost use Rattle.stored.specs.Values.{as_label};
ghost use Rattle.messages.specs.Columns.{Bits, column_of};
ghost use Rattle.counts.specs.HeldRows.{spread_table, spread_tables, BitColumns, added, with_class, held_all, up_through, down_through};
ghost use Rattle.counts.specs.HeldRows.{products, own_counts};

use std::array;

// The largest count: larger ones are held at it.
const MAX_COUNT: u64 = 4294967295;

// A number held at the largest count.
fn hold(n: u64) -> u32
    ensures { result ≡ held n }
{
    n.min(MAX_COUNT) as u32
}

// A product, held.
fn times(a: u32, b: u32) -> u32
    ensures { result ≡ held_times a b }
{
    hold(u64::from(a) * u64::from(b))
}

// A table spread: its columns, by the child's class. It isn't one function with relabel's `table_bars`, as those that call the two
// aren't one.
fn spread_table(
    rows: &[u8; stored::ROWS_SIZE],
    table: usize,
) -> [[u16; stored::MAX_CLASSES]; stored::MAX_CLASSES]
    requires { table < max_tables }
    ensures { result ≡ spread_table rows.now table }
{
    array::from_fn(
        |c|
            requires table_lt_max_tables { table < max_tables }
            requires c_lt_max_classes { c < max_classes }
            ensures { result ≡ column_of rows.entry.now table c }
        { messages::column_of(rows, table, c) },
    )
}

// The first n tables spread, and zeros past them. It isn't one function with relabel's `all_bars`: one that both callers share isn't put
// into them by the compiler, and each C then copied these 2 KB once more.
pub fn spread_tables(
    rows: &[u8; stored::ROWS_SIZE],
    tables: usize,
) -> [[[u16; stored::MAX_CLASSES]; stored::MAX_CLASSES]; stored::MAX_TABLES]
    requires { tables ≤ max_tables }
    ensures { result ≡ spread_tables rows.now tables }
{
    let mut spread = [[[0u16; stored::MAX_CLASSES]; stored::MAX_CLASSES]; stored::MAX_TABLES];
    for t in 0..tables {
        spread[t] = spread_table(rows, t);
    }
    spread
}

// A sum and the bit, 0 or 1, times a count: the count is added where the table has the bit, and nothing asks whether it has.
fn plus(sum: u64, bit: u16, count: u32) -> u64
    requires bit_bound { bit < 2 }
    requires sum_bound { sum ≤ max_classes * max_count }
    ensures value { result ≡ sum + count * bit }
    ensures upper_bound { result ≤ sum + max_count }
{
    sum + u64::from(count) * u64::from(bit)
}

// The sums for the eight classes of a parent, with the count of one class more of its child, whose column this is. A count of 0, of which
// there are many, changes none of them.
fn add_class(
    sums: [u64; stored::MAX_CLASSES],
    count: u32,
    column: [u16; stored::MAX_CLASSES],
) -> [u64; stored::MAX_CLASSES]
    requires bits { Bits column }
    requires by_index { (b : ℕ) → get_or sums b 0 ≤ max_classes * max_count }
    ensures value { result ≡ with_class sums count column }
    ensures by_index_2 { (b : ℕ) → get_or result b 0 ≤ get_or sums b 0 + max_count }
{
    if count == 0 {
        return sums;
    }
    array::from_fn(|b| plus(sums[b], column[b], count))
}

// The sums for eight classes, each held.
fn hold_all(sums: [u64; stored::MAX_CLASSES]) -> [u32; stored::MAX_CLASSES]
    ensures { result ≡ held_all sums }
{
    array::from_fn(|b| hold(sums[b]))
}

// Equation 2, upwards: the message of a child to its parent, through a table that is spread. To each of the parent's classes it
// contributes the sum of its counts over the classes in that class's row. Eight counts of 32 bits add up within 64, so holding can wait.
pub fn to_parent(
    counts: [u32; stored::MAX_CLASSES],
    columns: [[u16; stored::MAX_CLASSES]; stored::MAX_CLASSES],
) -> [u32; stored::MAX_CLASSES]
    requires { BitColumns columns }
    ensures { result ≡ up_through counts columns }
{
    let mut sums = [0u64; stored::MAX_CLASSES];
    for c in 0..stored::MAX_CLASSES {
        let more = add_class(sums, counts[c], columns[c]);
        sums = more;
    }
    hold_all(sums)
}

// What a parent contributes to the class of its child that a column is of: the sum of its counts over the classes in whose row that
// class is.
fn contribution(counts: [u32; stored::MAX_CLASSES], column: [u16; stored::MAX_CLASSES]) -> u32
    requires { Bits column }
    ensures { result ≡ held (added counts (λ b. get_or column b 0) max_classes) }
{
    let mut sum = 0;
    for b in 0..stored::MAX_CLASSES {
        sum = plus(sum, column[b], counts[b]);
    }
    hold(sum)
}

// Equation 2, downwards: the message of a parent to its child, through a table that is spread: what it contributes to each of the
// child's classes.
pub fn to_child(
    counts: [u32; stored::MAX_CLASSES],
    columns: [[u16; stored::MAX_CLASSES]; stored::MAX_CLASSES],
) -> [u32; stored::MAX_CLASSES]
    requires { BitColumns columns }
    ensures { result ≡ down_through counts columns }
{
    array::from_fn(|c| contribution(counts, columns[c]))
}

// The products of two plots' counts, class by class.
pub fn product(
    a: [u32; stored::MAX_CLASSES],
    b: [u32; stored::MAX_CLASSES],
) -> [u32; stored::MAX_CLASSES]
    ensures { result ≡ products a b max_classes }
{
    array::from_fn(|c| times(a[c], b[c]))
}

// A plot's own counts, class by class: 1 where the class is in its domain and agrees with its label, else 0.
pub fn own_row(domain: u8, label: Option<usize>) -> [u32; stored::MAX_CLASSES]
    ensures { result ≡ own_counts domain (as_label label) }
{
    array::from_fn(|c| u32::from(stored::allows(domain, c) && stored::agrees(label, c)))
}
