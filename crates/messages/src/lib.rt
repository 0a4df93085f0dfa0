// What the counts and the costs of a network share: rows of values, one row for each plot and in it a value for each
// class, the pass in which each plot sends its row to its parent, and the columns of bits of the tables that it goes through.
#![tactic(auto)]

mod start;

ghost use Rattle.std.specs.Prelude.{◌≡◌, ◌<◌};
ghost use Rattle.semantics.specs.Limits.{max_tables, max_classes};
ghost use Rattle.messages.specs.Columns.{column_of};

pub use start::own_rows;

// Column c of a table: for each class of the parent the bit of the child's class c in its row, 0 or 1, as a number of 16 bits.
// The products of `counts` read the bits back from arrays, where the compiler no longer sees that they are 0 or 1: where it does, it
// makes a branch of the product.
pub fn column_of(
    rows: &[u8; stored::ROWS_SIZE],
    table: usize,
    c: usize,
) -> [u16; stored::MAX_CLASSES]
    requires table_lt_max_tables { table < max_tables }
    requires c_lt_max_classes { c < max_classes }
    ensures { result ≡ column_of rows.now table c }
{
    std::array::from_fn(|b| u16::from(stored::bit(stored::row_at(rows, table, b), c)))
}
