// The text of the answers, written into a lent buffer.
#![tactic(auto)]

ghost use Rattle.std.specs.Prelude.{◌≡◌, true, ◌∷◌, ◌+◌, ◌*◌, ◌≤◌, ◌<◌, length, map};
ghost use Rattle.semantics.specs.Limits.{max_plots, max_classes, max_scanners, min_room};
ghost use Rattle.semantics.specs.Text.{comma_each};
ghost use Rattle.semantics.specs.Answers.{belief_text, supports_text, refusal_text, tally_text, tallies_text};
ghost use Rattle.semantics.specs.Buffers.{written};
ghost use Rattle.writing.specs.Pages.{place_of, HasRoom, Wrote};
ghost use Rattle.text.specs.Ids.{id_bytes};
ghost use Rattle.stored.specs.Values.{as_label};
ghost use Rattle.wording.specs.Room.{field_room, line_room};
ghost use Rattle.notes.specs.Views.{as_tally, as_tallies};
ghost use Rattle.support.specs.Beliefs.{as_belief, believed_below};
ghost use Rattle.answers.specs.Changes.{entry_text, change_lines, list_text};
ghost use Rattle.answers.specs.Room.{tally_room, tallies_room};

use network::Network;
use notes::{Tallies, Tally};
use writing::Page;

// Each count behind a comma, where there is room for that many numbers of 32 bits.
fn write_counts(page: &mut Page, counts: &[u32])
    requires { HasRoom page.old (field_room * length counts.now) }
    ensures short { place_of page.new ≤ place_of page.old + field_room * length counts.now }
    ensures written { Wrote page.old (comma_each counts.now) page.new }
{
    wording::write_fields(page, counts);
}

// The believed class behind a comma, or the comma alone.
fn write_belief(page: &mut Page, b: Option<usize>)
    requires b_value { believed_below max_classes (as_belief b) ≡ true }
    requires field_room_in_bounds { HasRoom page.old field_room }
    ensures short { place_of page.new ≤ place_of page.old + field_room }
    ensures written { Wrote page.old (44 ∷ belief_text (as_belief b)) page.new }
{
    match b {
        None => page.byte(b','),
        Some(class) => wording::write_field(page, class as u32),
    }
}

// C's answer, at the front of the buffer: the counts of the plot's classes, and the believed class or blank. It returns the place after
// what it wrote, as all public functions here do.
#[tactic(auto, using(wording::proofs::Lengths::few_bytes))]
pub fn write_supports(out: &mut [u8], id: text::Id, counts: &[u32], b: Option<usize>) -> usize
    requires few_counts { length counts.now ≤ max_classes }
    requires b_value { believed_below max_classes (as_belief b) ≡ true }
    requires min_room_in_bounds { min_room ≤ length out.old }
    ensures next { result ≡ length (supports_text (id_bytes id) counts.now (as_belief b)) }
    ensures written { out.new ≡ written out.old 0 (supports_text (id_bytes id) counts.now (as_belief b)) }
{
    let mut page = Page::new(out, 0);
    wording::write_front(&mut page, b'C', id);
    write_counts(&mut page, counts);
    write_belief(&mut page, b);
    page.byte(b'\n');
    page.place()
}

// The line for a plot that gets a class; nothing where it has no label, or has that class for its label.
fn write_change(page: &mut Page, label: Option<usize>, id: text::Id, class: u8)
    requires { HasRoom page.old line_room }
    ensures short { place_of page.new ≤ place_of page.old + line_room }
    ensures written { Wrote page.old (entry_text (id_bytes id) class (as_label label)) page.new }
{
    match label {
        Some(l) if l != class as usize => wording::write_value(page, b'L', id, class as u32),
        _ => {}
    }
}

// The lines of the relabel list, in order of arrival.
fn write_changes(page: &mut Page, n: &Network, classes: &[u8; stored::MAX_PLOTS])
    requires plots_le_max_plots { n.now.plots ≤ max_plots }
    requires room { HasRoom page.old (line_room * max_plots) }
    ensures short { place_of page.new ≤ place_of page.old + line_room * max_plots }
    ensures written { Wrote page.old
        (change_lines n.now.ids n.now.labels classes.now n.now.plots) page.new }
{
    for i in 0..n.plots {
        let label = n.label_at(i);
        write_change(page, label, n.id_at(i), classes[i]);
    }
}

// R's answer, at the front of the buffer: the number, and a line for each labelled plot whose class by position isn't its label.
#[tactic(auto, using(wording::proofs::Lengths::few_bytes))]
pub fn write_relabelling(
    out: &mut [u8],
    n: &Network,
    number: u16,
    classes: &[u8; stored::MAX_PLOTS],
) -> usize
    requires plots_le_max_plots { n.now.plots ≤ max_plots }
    requires min_room_in_bounds { min_room ≤ length out.old }
    ensures next { result ≡ length (list_text number
        (change_lines n.now.ids n.now.labels classes.now n.now.plots)) }
    ensures written { out.new ≡ written out.old 0 (list_text number
        (change_lines n.now.ids n.now.labels classes.now n.now.plots)) }
{
    let mut page = Page::new(out, 0);
    page.byte(b'R');
    wording::write_field(&mut page, number as u32);
    page.byte(b'\n');
    write_changes(&mut page, n, classes);
    page.place()
}

// A refusal as the program prints it, at a place of the buffer.
pub fn write_refusal(out: &mut [u8], at: usize, number: u32) -> usize
    requires { at + length (refusal_text number) ≤ length out.old }
    ensures next { result ≡ at + length (refusal_text number) }
    ensures written { out.new ≡ written out.old at (refusal_text number) }
{
    let mut page = Page::new(out, at);
    page.bytes(b"E,");
    page.number(number);
    page.byte(b'\n');
    page.place()
}

// The N line of the scanner with a number, if it has lines.
#[tactic(auto, using(wording::proofs::Lengths::few_bytes))]
fn write_tally(page: &mut Page, scanner: usize, t: Tally)
    requires scanner_lt_max_scanners { scanner < max_scanners }
    requires room { HasRoom page.old tally_room }
    ensures short { place_of page.new ≤ place_of page.old + tally_room }
    ensures written { Wrote page.old (tally_text scanner (as_tally t)) page.new }
{
    if t.lines() == 0 {
        return;
    }
    page.byte(b'N');
    write_counts(page, &[scanner as u32, t.accepted, t.refusals]);
    page.byte(b'\n');
}

// The N lines of all scanners that have lines, lowest first.
fn write_each_tally(page: &mut Page, each: &[Tally; notes::SCANNERS])
    requires { HasRoom page.old tallies_room }
    ensures { Wrote page.old (tallies_text 0 (map as_tally each.now)) page.new }
{
    for (scanner, tally) in each.iter().enumerate() {
        write_tally(page, scanner, *tally);
    }
}

// The tallies, as the end of the input prints them, at a place of the buffer.
pub fn write_tallies(out: &mut [u8], at: usize, t: &Tallies) -> usize
    requires { at + tallies_room ≤ length out.old }
    ensures next { result ≡ at + length (tallies_text 0 (as_tallies t.now)) }
    ensures written { out.new ≡ written out.old at (tallies_text 0 (as_tallies t.now)) }
{
    let mut page = Page::new(out, at);
    write_each_tally(&mut page, &t.each);
    page.place()
}
