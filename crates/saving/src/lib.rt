// The text of a network (document 02: U1), written into a lent buffer, and its length.
#![tactic(auto)]

ghost use Rattle.std.specs.Prelude.{◌≡◌, List, ℕ, ◌^◌, ◌≤◌, ◌<◌, length};
ghost use Rattle.semantics.specs.Limits.{table_rows};
ghost use Rattle.semantics.specs.NetworkText.{plot_line, domain_line, label_line, network_text};
ghost use Rattle.semantics.specs.Buffers.{written};
ghost use Rattle.writing.specs.Pages.{HasRoom, Wrote};
ghost use Rattle.stored.specs.Values.{table_at};
ghost use Rattle.network.specs.View.{view};
ghost use Rattle.saving.specs.Texts.{up_to, WritesEach, MeasuresEach, table_entry, plot_entry};

use network::Sound;
use writing::Page;

// The most bytes of a line of each kind, with the byte 10 that ends it: T, P of a root and of a child, S and L.
const TABLE_LINE: usize = 4 * stored::TABLE_ROWS + 2;

const ROOT_LINE: usize = text::ID_BYTES + 7;

const CHILD_LINE: usize = text::ID_BYTES + text::ID_BYTES + 9;

const DOMAIN_LINE: usize = text::ID_BYTES + 7;

const LABEL_LINE: usize = text::ID_BYTES + 5;

// The most bytes that the text of a network has.
pub const MAX_TEXT_BYTES: usize = TABLE_LINE * stored::MAX_TABLES
    + (ROOT_LINE + CHILD_LINE * (stored::MAX_PLOTS - 1))
    + (DOMAIN_LINE + LABEL_LINE) * stored::MAX_PLOTS;

// The part of the stored rows that is the table with a number.
fn table_part(s: &Sound, t: usize) -> &[u8]
    requires { t < s.now.network.tables }
    ensures rows { result.now ≡ table_at s.now.network.rows t }
    ensures long { length result.now ≡ table_rows }
{
    let from = t * stored::TABLE_ROWS;
    &s.network.rows[from..from + stored::TABLE_ROWS]
}

// Its rows, as the numbers that a line says.
fn rows_at(s: &Sound, t: usize) -> [u32; stored::TABLE_ROWS]
    requires { t < s.now.network.tables }
    ensures { result ≡ table_at s.now.network.rows t }
{
    let mut rows = [0; stored::TABLE_ROWS];
    rows.copy_from_slice(table_part(s, t));
    rows.map(u32::from)
}

// The T line of a table.
fn write_table(page: &mut Page, s: &Sound, t: usize)
    requires stands { t < s.now.network.tables }
    requires room { HasRoom page.old (length (table_entry s.now.network t)) }
    ensures { Wrote page.old (table_entry s.now.network t) page.new }
{
    wording::write_table(page, &rows_at(s, t));
}

// The P line of a plot. The parent's id stands at the parent's position: nothing is searched.
fn write_plot(page: &mut Page, s: &Sound, i: usize)
    requires stands { i < s.now.network.plots }
    requires room { HasRoom page.old (length (plot_entry plot_line s.now.network i)) }
    ensures { Wrote page.old (plot_entry plot_line s.now.network i) page.new }
{
    let id = s.network.id_at(i);
    let k = s.network.classes[i] as u32;
    match s.network.link_at(i) {
        None => wording::write_root(page, id, k),
        Some(stored::Link { parent, table }) => {
            let above = s.network.id_at(parent);
            wording::write_child(page, id, above, table as u32, k);
        }
    }
}

// The S line of a plot; nothing where all its classes are possible, as P leaves it.
fn write_domain(page: &mut Page, s: &Sound, i: usize)
    requires stands { i < s.now.network.plots }
    requires room { HasRoom page.old (length (plot_entry domain_line s.now.network i)) }
    ensures { Wrote page.old (plot_entry domain_line s.now.network i) page.new }
{
    let k = s.network.classes_at(i);
    let mask = s.network.domain_at(i);
    if mask != stored::all_classes(k) {
        wording::write_value(page, b'S', s.network.id_at(i), mask as u32);
    }
}

// The L line of a plot; nothing where it has no label.
fn write_label(page: &mut Page, s: &Sound, i: usize)
    requires stands { i < s.now.network.plots }
    requires room { HasRoom page.old (length (plot_entry label_line s.now.network i)) }
    ensures { Wrote page.old (plot_entry label_line s.now.network i) page.new }
{
    if let Some(c) = s.network.label_at(i) {
        wording::write_value(page, b'L', s.network.id_at(i), c as u32);
    }
}

// The first n of some texts one behind the other, by what writes one of them: the lines of one kind are written so.
fn write_each<F: Fn(&mut Page, usize)>(page: &mut Page, n: usize, write: F)
    requires { (text : ℕ → List ℕ) × WritesEach (F.pre write) (F.post write) n text × HasRoom page.old (length (up_to text n)) }
    ensures { (text : ℕ → List ℕ) → WritesEach (F.pre write) (F.post write) n text → HasRoom page.old (length (up_to text n))
        → Wrote page.old (up_to text n) page.new }
{
    for i in 0..n {
        write(page, i);
    }
}

// Writes the text of a network at the front of the buffer, and returns its length.
pub fn write_network(out: &mut [u8], s: &Sound) -> usize
    requires { length (network_text (view s.now.network)) ≤ length out.old }
    ensures next { result ≡ length (network_text (view s.now.network)) }
    ensures written { out.new ≡ written out.old 0 (network_text (view s.now.network)) }
{
    let tables = s.network.tables;
    let plots = s.network.plots;
    let mut page = Page::new(out, 0);
    write_each(&mut page, tables, |page, t| write_table(page, s, t));
    write_each(&mut page, plots, |page, i| write_plot(page, s, i));
    write_each(&mut page, plots, |page, i| write_domain(page, s, i));
    write_each(&mut page, plots, |page, i| write_label(page, s, i));
    page.place()
}

// How long the T line of a table is.
fn table_length(s: &Sound, t: usize) -> usize
    requires { t < s.now.network.tables }
    ensures { result ≡ length (table_entry s.now.network t) }
{
    wording::table_length(table_part(s, t))
}

// How long the P line of a plot is.
fn plot_length(s: &Sound, i: usize) -> usize
    requires { i < s.now.network.plots }
    ensures { result ≡ length (plot_entry plot_line s.now.network i) }
{
    let id = s.network.id_at(i);
    let k = s.network.classes[i] as u32;
    match s.network.link_at(i) {
        None => wording::root_length(id, k),
        Some(stored::Link { parent, table }) => {
            wording::child_length(id, s.network.id_at(parent), table as u32, k)
        }
    }
}

// How long the S line of a plot is: 0 where there is none.
fn domain_length(s: &Sound, i: usize) -> usize
    requires { i < s.now.network.plots }
    ensures { result ≡ length (plot_entry domain_line s.now.network i) }
{
    let k = s.network.classes_at(i);
    let mask = s.network.domain_at(i);
    if mask == stored::all_classes(k) {
        return 0;
    }
    wording::value_length(s.network.id_at(i), mask as u32)
}

// How long the L line of a plot is: 0 where there is none.
fn label_length(s: &Sound, i: usize) -> usize
    requires { i < s.now.network.plots }
    ensures { result ≡ length (plot_entry label_line s.now.network i) }
{
    match s.network.label_at(i) {
        None => 0,
        Some(c) => wording::value_length(s.network.id_at(i), c as u32),
    }
}

// How long the first n of some texts are together, by what measures one of them.
fn length_each<F: Fn(usize) -> usize>(n: usize, measure: F) -> usize
    requires { (text : ℕ → List ℕ) × MeasuresEach (F.pre measure) (F.post measure) n text × length (up_to text n) < 2 ^ 64 }
    ensures { (text : ℕ → List ℕ) → MeasuresEach (F.pre measure) (F.post measure) n text → result ≡ length (up_to text n) }
{
    let mut sum = 0;
    for i in 0..n {
        sum += measure(i);
    }
    sum
}

// How long the text of a network is.
pub fn text_length(s: &Sound) -> usize
    ensures { result ≡ length (network_text (view s.now.network)) }
{
    let plots = s.network.plots;
    let tables_part = length_each(s.network.tables, |t| table_length(s, t));
    let plots_part = length_each(plots, |i| plot_length(s, i));
    let domains_part = length_each(plots, |i| domain_length(s, i));
    let labels_part = length_each(plots, |i| label_length(s, i));
    tables_part + plots_part + domains_part + labels_part
}
