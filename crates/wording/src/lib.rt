// The text of lines and of their fields, written into a lent buffer, and how long each line is.
#![tactic(auto)]

ghost use Rattle.std.specs.Prelude.{◌≡◌, ◌∷◌, ◌+◌, ◌≤◌, length};
ghost use Rattle.semantics.specs.Limits.{table_rows};
ghost use Rattle.semantics.specs.Text.{decimal, comma_each};
ghost use Rattle.semantics.specs.Protocol.{nobody, named, table_text, parent_text, plot_text, domain_text};
ghost use Rattle.writing.specs.Pages.{place_of, HasRoom, Wrote};
ghost use Rattle.text.specs.Ids.{id_bytes};
ghost use Rattle.wording.specs.Lines.{value_text, ended};
ghost use Rattle.wording.specs.Room.{field_room, front_room, line_room, longest_room};

use writing::Page;

// A number behind a comma.
#[tactic(auto, using(crate::proofs::Lengths::few_bytes, writing::proofs::Pages::wrote_two))]
pub fn write_field(page: &mut Page, n: u32)
    requires { HasRoom page.old (length (44 ∷ decimal n)) }
    ensures short { place_of page.new ≤ place_of page.old + field_room }
    ensures written { Wrote page.old (44 ∷ decimal n) page.new }
{
    page.byte(b',');
    page.number(n);
}

// The front of a line about a plot: its letter, and the plot's id behind a comma.
#[tactic(auto, using(crate::proofs::Lengths::few_bytes))]
pub fn write_front(page: &mut Page, letter: u8, id: text::Id)
    requires { HasRoom page.old (length (letter ∷ 44 ∷ id_bytes id)) }
    ensures short { place_of page.new ≤ place_of page.old + front_room }
    ensures written { Wrote page.old (letter ∷ 44 ∷ id_bytes id) page.new }
{
    page.bytes(&[letter, b',']);
    text::write_id(page, id);
}

// Each number behind a comma.
pub fn write_fields(page: &mut Page, numbers: &[u32])
    requires { HasRoom page.old (length (comma_each numbers.now)) }
    ensures { Wrote page.old (comma_each numbers.now) page.new }
{
    for n in numbers {
        write_field(page, *n);
    }
}

// The T line of a table.
pub fn write_table(page: &mut Page, rows: &[u32])
    requires { HasRoom page.old (length (ended (table_text rows.now))) }
    ensures { Wrote page.old (ended (table_text rows.now)) page.new }
{
    page.byte(b'T');
    write_fields(page, rows);
    page.byte(b'\n');
}

// The P line of a root, whose parent and table are blank.
pub fn write_root(page: &mut Page, id: text::Id, k: u32)
    requires { HasRoom page.old (length (ended (plot_text (id_bytes id) nobody k))) }
    ensures { Wrote page.old (ended (plot_text (id_bytes id) nobody k)) page.new }
{
    write_front(page, b'P', id);
    page.bytes(b",,");
    write_field(page, k);
    page.byte(b'\n');
}

// The two fields of a link: the parent's id and the table's number, each behind a comma.
fn write_link(page: &mut Page, parent: text::Id, table: u32)
    requires { HasRoom page.old (length (parent_text (named (id_bytes parent) table))) }
    ensures { Wrote page.old (parent_text (named (id_bytes parent) table)) page.new }
{
    page.byte(b',');
    text::write_id(page, parent);
    write_field(page, table);
}

// The P line of a plot below a parent.
pub fn write_child(page: &mut Page, id: text::Id, parent: text::Id, table: u32, k: u32)
    requires { HasRoom page.old (length (ended (plot_text (id_bytes id) (named (id_bytes parent) table) k))) }
    ensures { Wrote page.old (ended (plot_text (id_bytes id) (named (id_bytes parent) table) k)) page.new }
{
    write_front(page, b'P', id);
    write_link(page, parent, table);
    write_field(page, k);
    page.byte(b'\n');
}

// The line that gives a plot a value: S with a mask, L with a class.
#[tactic(auto, using(crate::proofs::Lengths::few_bytes))]
pub fn write_value(page: &mut Page, letter: u8, id: text::Id, value: u32)
    requires { HasRoom page.old (length (ended (value_text letter (id_bytes id) value))) }
    ensures short { place_of page.new ≤ place_of page.old + line_room }
    ensures written { Wrote page.old (ended (value_text letter (id_bytes id) value)) page.new }
{
    write_front(page, letter, id);
    write_field(page, value);
    page.byte(b'\n');
}

// How long the T line of a table is: the letter and the line's end, and each row behind a comma.
#[tactic(auto, using(crate::proofs::Lengths::few_bytes))]
pub fn table_length(rows: &[u8]) -> usize
    requires { length rows.now ≤ table_rows }
    ensures short { result ≤ longest_room }
    ensures sum { result ≡ length (ended (table_text rows.now)) }
{
    let mut sum = 2;
    for row in rows {
        sum += 1 + writing::number_length(*row as u32);
    }
    sum
}

// How long the P line of a root is.
#[tactic(auto, using(crate::proofs::Lengths::few_bytes))]
pub fn root_length(id: text::Id, k: u32) -> usize
    ensures short { result ≤ longest_room }
    ensures sum { result ≡ length (ended (plot_text (id_bytes id) nobody k)) }
{
    text::id_length(id) + writing::number_length(k) + 6
}

// How long the P line of a plot below a parent is.
#[tactic(auto, using(crate::proofs::Lengths::few_bytes))]
pub fn child_length(id: text::Id, parent: text::Id, table: u32, k: u32) -> usize
    ensures short { result ≤ longest_room }
    ensures sum { result ≡ length (ended (plot_text (id_bytes id) (named (id_bytes parent) table) k)) }
{
    let ids = text::id_length(id) + text::id_length(parent);
    ids + writing::number_length(table) + writing::number_length(k) + 6
}

// How long the line that gives a plot a value is, whatever its letter.
#[tactic(auto, using(crate::proofs::Lengths::few_bytes))]
pub fn value_length(id: text::Id, value: u32) -> usize
    ensures short { result ≤ longest_room }
    ensures sum { result ≡ length (ended (domain_text (id_bytes id) value)) }
{
    text::id_length(id) + writing::number_length(value) + 4
}
