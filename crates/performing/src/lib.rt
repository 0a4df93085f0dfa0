// What a line that was read does to a state that keeps the rules: it is refused, it is answered, or it edits the network in place.
#![tactic(auto)]

ghost use Rattle.std.specs.Prelude.{◌≡◌, ◌^◌, ◌≤◌, length, leb};
ghost use Rattle.semantics.specs.Limits.{max_classes, min_room};
ghost use Rattle.semantics.specs.Network.{find};
ghost use Rattle.semantics.specs.Protocol.{WellRead, add_table, add_plot, set_domain, set_label, ask_relabelling, ask_supports, from_scanner};
ghost use Rattle.text.specs.Ids.{id_bytes};
ghost use Rattle.stored.specs.Values.{as_label};
ghost use Rattle.network.specs.View.{view};
ghost use Rattle.network.specs.Sound.{whole};
ghost use Rattle.protocol.specs.Lines.{as_line, as_above};
ghost use Rattle.performing.specs.Performed.{lacks_label, counts_found};
ghost use Rattle.performing.specs.Performing.{Performing, Editing, link_below};

use network::Sound;
use protocol::{Above, Line};
use refusals::Refusal;

// T: a table behind those that stand, if there is room.
fn add_table(s: &mut Sound, rows: [u8; stored::TABLE_ROWS]) -> Result<usize, Refusal>
    ensures { Editing (whole s.old) (add_table rows) (whole s.new) result }
{
    if stored::MAX_TABLES <= s.network.tables {
        return Err(Refusal::TablesFull);
    }
    s.network.lengths();
    editing::add_table(&mut s.network, rows);
    Ok(0)
}

// The link below what a P line names: a root where it names nothing, if no plot stands; else the parent and the table, if both stand.
fn link_below(s: &Sound, above: Option<Above>) -> Result<Option<stored::Link>, Refusal>
    ensures { result ≡ link_below s.now.network above }
{
    match above {
        None => {
            if 0 < s.network.plots {
                return Err(Refusal::NoParent);
            }
            Ok(None)
        }
        Some(above) => {
            let parent = s.network.find(above.parent).ok_or(Refusal::NoParent)?;
            if s.network.tables <= above.table {
                return Err(Refusal::NoTable);
            }
            Ok(Some(stored::Link {
                parent,
                table: above.table,
            }))
        }
    }
}

// P: room first, then the id, then what it hangs below.
#[tactic(auto, using(network::proofs::Standing::few, crate::proofs::Editing::plot_link))]
fn add_plot(s: &mut Sound, id: text::Id, above: Option<Above>, k: usize) -> Result<usize, Refusal>
    requires { WellRead (add_plot (id_bytes id) (as_above above) k) }
    ensures { Editing (whole s.old) (add_plot (id_bytes id) (as_above above) k) (whole s.new) result }
{
    if stored::MAX_PLOTS <= s.network.plots {
        return Err(Refusal::PlotsFull);
    }
    if s.network.find(id).is_some() {
        return Err(Refusal::IdStands);
    }
    let link = link_below(s, above)?;
    s.network.lengths();
    editing::add_plot(&mut s.network, id, link, k);
    Ok(0)
}

// Whether a mask has a class that a plot of k classes lacks.
fn lacks_one_of(k: usize, mask: u8) -> bool
    requires { k ≤ max_classes }
    ensures { result ≡ leb (2 ^ k) mask }
{
    (1u16 << k) <= mask as u16
}

// S: another mask of classes, if the plot stands and has them all.
#[tactic(auto, using(network::proofs::Standing::few, crate::proofs::Editing::found_stands, crate::proofs::Refusing::got))]
fn set_domain(s: &mut Sound, id: text::Id, mask: u8) -> Result<usize, Refusal>
    requires { WellRead (set_domain (id_bytes id) mask) }
    ensures { Editing (whole s.old) (set_domain (id_bytes id) mask) (whole s.new) result }
{
    let i = s.network.find(id).ok_or(Refusal::NoPlot)?;
    if lacks_one_of(s.network.classes_at(i), mask) {
        return Err(Refusal::ClassLacking);
    }
    s.network.lengths();
    editing::set_domain(&mut s.network, i, mask);
    Ok(0)
}

// Whether a plot of k classes lacks the class of a label.
fn lacks(k: usize, label: Option<usize>) -> bool
    ensures { result ≡ lacks_label k (as_label label) }
{
    label.is_some_and(|c| k <= c)
}

// L: another label or none, if the plot stands and has the class.
#[tactic(auto, using(network::proofs::Standing::few, crate::proofs::Editing::found_stands, crate::proofs::Refusing::got))]
fn set_label(s: &mut Sound, id: text::Id, label: Option<usize>) -> Result<usize, Refusal>
    requires { WellRead (set_label (id_bytes id) (as_label label)) }
    ensures { Editing (whole s.old) (set_label (id_bytes id) (as_label label)) (whole s.new) result }
{
    let i = s.network.find(id).ok_or(Refusal::NoPlot)?;
    if lacks(s.network.classes_at(i), label) {
        return Err(Refusal::ClassLacking);
    }
    s.network.lengths();
    editing::set_label(&mut s.network, i, stored::label_byte(label));
    Ok(0)
}

// How many classes a plot has, their counts, zeros past them, and the class that is believed of it, if any.
// As many of the eight counts are the plot's as it has classes: the number stands beside them, as nothing here is on a heap.
#[derive(Clone, Copy)]
pub struct PlotCounts {
    pub classes: usize,
    pub counts: [u32; stored::MAX_CLASSES],
    pub belief: Option<usize>,
}

// The counts of the plot with an id, if it stands, and what is believed by them.
#[tactic(auto, using(network::proofs::Standing::few, crate::proofs::Editing::found_stands))]
pub fn counts_of(s: &Sound, id: text::Id) -> Option<PlotCounts>
    ensures { result ≡ counts_found (view s.now.network) (find (id_bytes id) (view s.now.network).plots) }
{
    let i = s.network.find(id)?;
    let classes = s.network.classes_at(i);
    let counts = support::supports(s, i);
    Some(PlotCounts {
        classes,
        counts,
        belief: support::believed(&counts[..classes]),
    })
}

// C: the counts of a plot that stands.
fn ask_supports(s: &Sound, id: text::Id, out: &mut [u8]) -> Result<usize, Refusal>
    requires { min_room ≤ length out.old }
    ensures { Performing (whole s.now) (ask_supports (id_bytes id)) out.old (whole s.now) result out.new }
{
    let found = counts_of(s, id).ok_or(Refusal::NoPlot)?;
    Ok(answers::write_supports(out, id, &found.counts[..found.classes], found.belief))
}

// R: the relabel list, unless nothing fits. It stands outside of the loop over lines, whose numbers would take the registers that its own
// loops need.
#[inline(never)]
#[tactic(auto, using(network::proofs::Standing::few))]
fn ask_relabelling(s: &Sound, out: &mut [u8]) -> Result<usize, Refusal>
    requires { min_room ≤ length out.old }
    ensures { Performing (whole s.now) ask_relabelling out.old (whole s.now) result out.new }
{
    let found = relabel::relabelling(s).ok_or(Refusal::NothingFits)?;
    Ok(answers::write_relabelling(out, &s.network, found.number, &found.classes))
}

// H: lines come from another scanner from this one on.
fn set_scanner(s: &mut Sound, scanner: usize) -> Result<usize, Refusal>
    requires { WellRead (from_scanner scanner) }
    ensures { Editing (whole s.old) (from_scanner scanner) (whole s.new) result }
{
    s.network.lengths();
    s.notes.scanner = scanner;
    Ok(0)
}

// What a line that was read does, of any kind. An answer is written at the front of the buffer.
// That the line was well read is asked, and not known of a `Line`: an enum has no ghost field.
pub fn perform(s: &mut Sound, line: Line, out: &mut [u8]) -> Result<usize, Refusal>
    requires well_read { WellRead (as_line line) }
    requires min_room_in_bounds { min_room ≤ length out.old }
    ensures { Performing (whole s.old) (as_line line) out.old (whole s.new) result out.new }
{
    match line {
        Line::AddTable(rows) => add_table(s, rows),
        Line::AddPlot { id, above, classes } => add_plot(s, id, above, classes),
        Line::SetDomain { id, mask } => set_domain(s, id, mask),
        Line::SetLabel { id, label } => set_label(s, id, label),
        Line::AskRelabelling => ask_relabelling(s, out),
        Line::AskSupports(id) => ask_supports(s, id, out),
        Line::FromScanner(scanner) => set_scanner(s, scanner),
    }
}
