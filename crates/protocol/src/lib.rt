// What a line says: read from its bytes, or which of the refusals 1 to 7 it meets.
#![tactic(auto)]

ghost use Rattle.std.specs.Prelude.{◌≡◌, ◌≢◌, ◌≤◌, ◌<◌, [], ◌∷◌, length, map, nat_le, true, false, MatchResult, MatchOption, Ok, Err, None, Some, is_some, not, ⊤};
ghost use Rattle.std.specs.Fn.{FnOnceReturnsAt};
ghost use Rattle.std.specs.List.{list_all};
ghost use Rattle.semantics.specs.Limits.{table_rows, max_mask};
ghost use Rattle.semantics.specs.Text.{is_blank, number, malformed, value, is_number, within, is_id};
ghost use Rattle.semantics.specs.Protocol.{read_table, read_plot, read_domain, read_label, read_relabelling, read_supports, read_scanner, read_line};
ghost use Rattle.text.specs.Ids.{id_bytes};
ghost use Rattle.protocol.specs.Lines.{as_read};
ghost use Rattle.refusals.specs.declared.Refusal.TheVariants.{FieldCount, MalformedId, MalformedNumber, OutOfRange, HalfLink};

use refusals::Refusal;
use text::{Fields, Id};

// The bytes of a line (document 01: at most 40).
const MAX_LINE_BYTES: usize = 40;

// The mask of all eight classes.
const MAX_MASK: usize = 255;

// What a P line names above its plot: a parent, and the table by which the plot is its child.
#[derive(Clone, Copy)]
pub struct Above {
    pub parent: Id,
    pub table: usize,
}

// What a line says.
#[derive(Clone, Copy)]
pub enum Line {
    AddTable([u8; stored::TABLE_ROWS]),
    AddPlot {
        id: Id,
        above: Option<Above>,
        classes: usize,
    },
    SetDomain {
        id: Id,
        mask: u8,
    },
    SetLabel {
        id: Id,
        label: Option<usize>,
    },
    AskRelabelling,
    AskSupports(Id),
    FromScanner(usize),
}

// The next field, or 3 where there is none.
fn next_field<'a>(fields: &mut Fields<'a>) -> Result<&'a [u8], Refusal>
    ensures { MatchResult result
        (λ f. fields.old ≡ f.now ∷ fields.new)
        (λ e. (e ≡ FieldCount) × (fields.old ≡ [])) }
{
    fields.next().ok_or(Refusal::FieldCount)
}

// That no field is left, or 3.
fn end(mut fields: Fields) -> Result<(), Refusal>
    ensures { MatchResult result (λ _. fields.entry ≡ []) (λ e. (e ≡ FieldCount) × (0 < length fields.entry)) }
{
    match fields.next() {
        None => Ok(()),
        Some(_) => Err(Refusal::FieldCount),
    }
}

// The two fields that are left of an S or L line, or 3.
fn two_fields<'a>(mut fields: Fields<'a>) -> Result<(&'a [u8], &'a [u8]), Refusal>
    ensures { MatchResult result
        (λ p. fields.entry ≡ p.0.now ∷ p.1.now ∷ [])
        (λ e. (e ≡ FieldCount) × (length fields.entry ≢ 2)) }
{
    let first = next_field(&mut fields)?;
    let second = next_field(&mut fields)?;
    end(fields)?;
    Ok((first, second))
}

// The id that a field says, or 4.
fn read_id(field: &[u8]) -> Result<Id, Refusal>
    ensures { MatchResult result
        (λ id. (is_id field.now ≡ true) × (id_bytes id ≡ field.now))
        (λ e. (e ≡ MalformedId) × (is_id field.now ≡ false)) }
{
    text::read_id(field).ok_or(Refusal::MalformedId)
}

// The number that a field says, or 5.
fn read_number(field: &[u8]) -> Result<usize, Refusal>
    ensures { MatchResult result
        (λ n. number field.now ≡ value n)
        (λ e. (e ≡ MalformedNumber) × (number field.now ≡ malformed)) }
{
    text::read_number(field)
        .map(usize::from)
        .ok_or(Refusal::MalformedNumber)
}

// What is read of a field, unless it is blank.
fn unless_blank<T, F: FnOnce(&[u8]) -> Result<T, Refusal>>(
    field: &[u8],
    read: F,
) -> Result<Option<T>, Refusal>
    requires { F.IsAlwaysCallable read }
    ensures { MatchResult result
        (λ o. MatchOption o (field.now ≡ []) (λ x. (is_blank field.now ≡ false) × FnOnceReturnsAt F.FnOnce read field.now (Ok x)))
        (λ e. (is_blank field.now ≡ false) × FnOnceReturnsAt F.FnOnce read field.now (Err e)) }
{
    if field.is_empty() {
        return Ok(None);
    }
    Ok(Some(read(field)?))
}

// That a number, where there is one, is from low to high, or 6.
fn in_range(n: Option<usize>, low: usize, high: usize) -> Result<(), Refusal>
    ensures { MatchResult result
        (λ _. MatchOption n ⊤ (λ v. (low ≤ v) × (v ≤ high)))
        (λ e. (e ≡ OutOfRange) × MatchOption n ⊥ (λ v. within low high (value v) ≡ false)) }
{
    match n {
        Some(v) if v < low || high < v => Err(Refusal::OutOfRange),
        _ => Ok(()),
    }
}

// The numbers that the eight fields of a T line say, or 5.
fn row_numbers(mut fields: Fields) -> Result<[usize; stored::TABLE_ROWS], Refusal>
    requires { length fields ≡ table_rows }
    ensures { MatchResult result
        (λ ns. map number fields.entry ≡ map value ns)
        (λ e. (e ≡ MalformedNumber) × (list_all is_number (map number fields.entry) ≡ false)) }
{
    let mut numbers = [0; stored::TABLE_ROWS];
    for n in numbers.iter_mut() {
        let field = fields.next().unwrap();
        let said = read_number(field)?;
        *n = said;
    }
    Ok(numbers)
}

// The masks that they are, or 6.
fn row_masks(numbers: [usize; stored::TABLE_ROWS]) -> Result<[u8; stored::TABLE_ROWS], Refusal>
    ensures { MatchResult result
        (λ rows. (rows ≡ numbers) × (list_all (λ n. nat_le n max_mask) numbers ≡ true))
        (λ e. (e ≡ OutOfRange) × (list_all (λ n. nat_le n max_mask) numbers ≡ false)) }
{
    let mut rows = [0; stored::TABLE_ROWS];
    for (i, n) in numbers.iter().enumerate() {
        in_range(Some(*n), 0, MAX_MASK)?;
        rows[i] = *n as u8;
    }
    Ok(rows)
}

// T,r0,..,r7
#[tactic(auto, using(crate::proofs::Rows::rows_said))]
fn read_table(fields: Fields) -> Result<Line, Refusal>
    ensures { as_read result ≡ read_table ([] ∷ fields.entry) }
{
    if fields.len() != stored::TABLE_ROWS {
        return Err(Refusal::FieldCount);
    }
    let numbers = row_numbers(fields)?;
    let rows = row_masks(numbers)?;
    Ok(Line::AddTable(rows))
}

// What a P line names above its plot: a parent and a table, or neither, or 7.
fn above_of(parent: Option<Id>, table: Option<usize>) -> Result<Option<Above>, Refusal>
    ensures { MatchResult result
        (λ a. MatchOption a
        ((parent ≡ None) × (table ≡ None))
        (λ a. (parent ≡ Some a.parent) × (table ≡ Some a.table)))
        (λ e. (e ≡ HalfLink) × (is_some parent ≡ not (is_some table))) }
{
    match (parent, table) {
        (None, None) => Ok(None),
        (Some(parent), Some(table)) => Ok(Some(Above { parent, table })),
        _ => Err(Refusal::HalfLink),
    }
}

// What a P line says by its four fields. The form of all numbers comes before their ranges.
fn plot_line<'a>(
    id: &'a [u8],
    parent: &'a [u8],
    table: &'a [u8],
    classes: &'a [u8],
) -> Result<Line, Refusal>
    ensures { as_read result
        ≡ read_plot ([] ∷ id.now ∷ parent.now ∷ table.now ∷ classes.now ∷ []) }
{
    let id = read_id(id)?;
    let parent = unless_blank(parent, read_id)?;
    let table = unless_blank(table, read_number)?;
    let classes = read_number(classes)?;
    in_range(table, 0, stored::MAX_TABLES - 1)?;
    in_range(Some(classes), 1, stored::MAX_CLASSES)?;
    let above = above_of(parent, table)?;
    Ok(Line::AddPlot { id, above, classes })
}

// P,id,parent,table,k
fn read_plot(mut fields: Fields) -> Result<Line, Refusal>
    ensures { as_read result ≡ read_plot ([] ∷ fields.entry) }
{
    let id = next_field(&mut fields)?;
    let parent = next_field(&mut fields)?;
    let table = next_field(&mut fields)?;
    let classes = next_field(&mut fields)?;
    end(fields)?;
    plot_line(id, parent, table, classes)
}

// S,id,mask
fn read_domain(fields: Fields) -> Result<Line, Refusal>
    ensures { as_read result ≡ read_domain ([] ∷ fields.entry) }
{
    let (id, mask) = two_fields(fields)?;
    let id = read_id(id)?;
    let mask = read_number(mask)?;
    in_range(Some(mask), 1, MAX_MASK)?;
    Ok(Line::SetDomain {
        id,
        mask: mask as u8,
    })
}

// L,id,class
fn read_label(fields: Fields) -> Result<Line, Refusal>
    ensures { as_read result ≡ read_label ([] ∷ fields.entry) }
{
    let (id, class) = two_fields(fields)?;
    let id = read_id(id)?;
    let label = unless_blank(class, read_number)?;
    in_range(label, 0, stored::MAX_CLASSES - 1)?;
    Ok(Line::SetLabel { id, label })
}

// R
fn read_relabelling(fields: Fields) -> Result<Line, Refusal>
    ensures { as_read result ≡ read_relabelling ([] ∷ fields.entry) }
{
    end(fields)?;
    Ok(Line::AskRelabelling)
}

// C,id
fn read_supports(mut fields: Fields) -> Result<Line, Refusal>
    ensures { as_read result ≡ read_supports ([] ∷ fields.entry) }
{
    let id = next_field(&mut fields)?;
    end(fields)?;
    let id = read_id(id)?;
    Ok(Line::AskSupports(id))
}

// H,n
fn read_scanner(mut fields: Fields) -> Result<Line, Refusal>
    ensures { as_read result ≡ read_scanner ([] ∷ fields.entry) }
{
    let n = next_field(&mut fields)?;
    end(fields)?;
    let n = read_number(n)?;
    in_range(Some(n), 0, notes::SCANNERS - 1)?;
    Ok(Line::FromScanner(n))
}

// What a line says, of any bytes.
pub fn read_line(line: &[u8]) -> Result<Line, Refusal>
    ensures { as_read result ≡ read_line line.now }
{
    if MAX_LINE_BYTES < line.len() {
        return Err(Refusal::LineTooLong);
    }
    let mut fields = Fields::new(line);
    let Some([letter]) = fields.next() else {
        return Err(Refusal::UnknownLetter);
    };
    match letter {
        b'T' => read_table(fields),
        b'P' => read_plot(fields),
        b'S' => read_domain(fields),
        b'L' => read_label(fields),
        b'R' => read_relabelling(fields),
        b'C' => read_supports(fields),
        b'H' => read_scanner(fields),
        _ => Err(Refusal::UnknownLetter),
    }
}
