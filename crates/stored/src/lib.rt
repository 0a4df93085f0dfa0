// How a table's rows, a link and a label are stored in bytes, and what their bytes say.
#![tactic(auto)]

ghost use Rattle.std.specs.Prelude.{◌≡◌, ◌/◌, ◌%◌, ◌^◌, ◌≤◌, ◌<◌, get_or};
ghost use Rattle.semantics.specs.Limits.{max_tables, max_plots, max_classes, table_rows};
ghost use Rattle.semantics.specs.Network.{allows, all_classes};
ghost use Rattle.semantics.specs.Solutions.{agrees};
ghost use Rattle.stored.specs.Values.{as_link, as_label, link_of, label_of, parent_byte, table_byte, link_bytes, label_byte, table_at};

// The limits of document 01: tables, plots, classes of a plot, rows of a table.
pub const MAX_TABLES: usize = 16;

pub const MAX_PLOTS: usize = 128;

pub const MAX_CLASSES: usize = 8;

pub const TABLE_ROWS: usize = 8;

// The bytes in which all rows, and all ids, are stored.
pub const ROWS_SIZE: usize = MAX_TABLES * TABLE_ROWS;

pub const IDS_SIZE: usize = MAX_PLOTS * text::SLOT_BYTES;

// How a plot is bound that has a parent: the parent's position, and the table between them. A root (the foundation) has no link.
#[derive(Clone, Copy)]
pub struct Link {
    pub parent: usize,
    pub table: usize,
}

// The bit of class c in a mask, 0 or 1.
pub fn bit(mask: u8, c: usize) -> u8
    requires { c < max_classes }
    ensures { result ≡ mask / 2 ^ c % 2 }
{
    (mask >> c) & 1
}

// Whether class c is in a mask.
pub fn allows(mask: u8, c: usize) -> bool
    requires { c < max_classes }
    ensures { result ≡ allows mask c }
{
    bit(mask, c) == 1
}

// The mask of all k classes of a plot.
pub fn all_classes(k: usize) -> u8
    requires { k ≤ max_classes }
    ensures { result ≡ all_classes k }
{
    ((1u16 << k) - 1) as u8
}

// The mask of classes that a table allows a child whose parent has a class.
pub fn row_at(rows: &[u8; ROWS_SIZE], table: usize, class: usize) -> u8
    requires table_lt_max_tables { table < max_tables }
    requires class_lt_table_rows { class < table_rows }
    ensures { result ≡ get_or (table_at rows.now table) class 0 }
{
    rows[table * TABLE_ROWS + class]
}

// A link from the bytes that it is stored as. Where only one of them says none, the link is one that can't hold.
pub fn link_of(parent: u8, table: u8) -> Option<Link>
    ensures { as_link result ≡ link_of parent table }
{
    if parent == 0 {
        if table == 0 {
            return None;
        }
        return Some(Link {
            parent: MAX_PLOTS,
            table: (table - 1) as usize,
        });
    }
    if table == 0 {
        return Some(Link {
            parent: (parent - 1) as usize,
            table: MAX_TABLES,
        });
    }
    Some(Link {
        parent: (parent - 1) as usize,
        table: (table - 1) as usize,
    })
}

// The two bytes that a link is stored as.
#[derive(Clone, Copy)]
pub struct LinkBytes {
    pub parent: u8,
    pub table: u8,
}

// The bytes of a link: each part stored plus one, 0 for a root.
pub fn link_bytes(link: Option<Link>) -> LinkBytes
    requires link_bound { parent_byte link ≤ max_plots }
    requires link_bound_2 { table_byte link ≤ max_tables }
    ensures { result ≡ link_bytes link }
{
    match link {
        None => LinkBytes {
            parent: 0,
            table: 0,
        },
        Some(Link { parent, table }) => LinkBytes {
            parent: (parent + 1) as u8,
            table: (table + 1) as u8,
        },
    }
}

// A label, none or a class, from the byte that it is stored as.
pub fn label_of(label: u8) -> Option<usize>
    ensures { as_label result ≡ label_of label }
{
    if label == 0 {
        return None;
    }
    Some((label - 1) as usize)
}

// The byte of a label: its class stored plus one, 0 for none.
pub fn label_byte(label: Option<usize>) -> u8
    requires { label_byte label ≤ max_classes }
    ensures { result ≡ label_byte label }
{
    match label {
        None => 0,
        Some(c) => (c + 1) as u8,
    }
}

// Whether a class agrees with a label; any class agrees with none.
pub fn agrees(label: Option<usize>, c: usize) -> bool
    ensures { result ≡ agrees (as_label label) c }
{
    match label {
        None => true,
        Some(l) => l == c,
    }
}
