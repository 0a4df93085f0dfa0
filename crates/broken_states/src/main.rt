// Hands in states that break one rule each, and states at the edge of a rule that keep it, and prints what is found.
#![tactic(auto)]

use network::{Network, State};
use notes::{Notes, SCANNERS, Tallies, Tally};
use std::io;

// A root A with two children B and C below it, three classes each, one table.
fn three_plots() -> Network {
    let mut n = State::empty().network;
    n.tables = 1;
    n.plots = 3;
    n.ids[0] = b'A';
    n.ids[16] = b'B';
    n.ids[32] = b'C';
    n.parents[1..3].fill(1);
    n.through[1..3].fill(1);
    n.classes[..3].fill(3);
    n.domains[..3].fill(7);
    n
}

// As many plots as may stand: a chain of plots of two classes, whose ids are AA, AB, .., HP.
fn full() -> Network {
    let mut n = State::empty().network;
    n.tables = 1;
    n.plots = 128;
    for i in 0..128 {
        n.ids[i * 16] = b'A' + (i / 16) as u8;
        n.ids[i * 16 + 1] = b'A' + (i % 16) as u8;
        n.parents[i] = i as u8;
    }
    n.through[1..].fill(1);
    n.classes.fill(2);
    n.domains.fill(3);
    n
}

// What is found of a state, after the name of the case.
fn show_state(to: &impl Print, name: &str, network: Network, notes: Notes) -> io::Result<()> {
    let state = State { network, notes };
    let found = if state.holds() { "kept" } else { "broken" };
    println!(to; "{name}: {found}")
}

// The same of a network, with no line taken.
fn show(to: &impl Print, name: &str, network: Network) -> io::Result<()> {
    show_state(to, name, network, Notes::unused())
}

// The counts of tables and plots.
fn counts(to: &impl Print) -> io::Result<()> {
    show(to, "three plots", three_plots())?;
    let mut n = three_plots();
    n.tables = 16;
    show(to, "16 tables", n)?;
    n.tables = 17;
    show(to, "17 tables", n)?;
    n.tables = usize::MAX;
    show(to, "as many tables as a count can say", n)?;
    let mut m = full();
    show(to, "128 plots", m)?;
    m.plots = 129;
    show(to, "129 plots", m)?;
    m.plots = usize::MAX;
    show(to, "as many plots as a count can say", m)
}

// Well-formed ids, zeros behind them.
fn ids(to: &impl Print) -> io::Result<()> {
    let mut n = three_plots();
    n.ids[16] = 0;
    show(to, "no id", n)?;
    n.ids[16] = b'b';
    show(to, "a small letter", n)?;
    n.ids[16] = b'[';
    show(to, "the byte after Z", n)?;
    n.ids[16] = b'0';
    show(to, "a digit", n)?;
    n.ids[18] = b'1';
    show(to, "a byte behind a zero", n)?;
    n.ids[17] = b'1';
    show(to, "no zero between the bytes", n)?;
    n.ids[19..24].copy_from_slice(b"23456");
    show(to, "eight bytes", n)?;
    n.ids[24] = b'7';
    show(to, "nine bytes", n)?;
    n.ids[25] = b'8';
    n.ids[26] = b'9';
    show(to, "eleven bytes", n)?;
    n.ids[16] = 0;
    show(to, "a zero before the bytes", n)?;
    n.ids[16] = b'0';
    n.ids[24] = 0;
    show(to, "a zero for the ninth of the bytes", n)?;
    n.ids[24] = b'8';
    n.ids[26] = b'z';
    show(to, "a small letter for the last of them", n)
}

// Different ids, each from every other.
fn different_ids(to: &impl Print) -> io::Result<()> {
    let mut n = three_plots();
    n.ids[32] = b'B';
    show(to, "the id of the plot before", n)?;
    n.ids[32] = b'A';
    show(to, "the id of the plot before that", n)?;
    n.ids[33] = b'A';
    show(to, "A and AA", n)?;
    n.ids[16..24].copy_from_slice(b"01123456");
    n.ids[32..41].copy_from_slice(b"011234567");
    show(to, "eight bytes and these with a ninth", n)?;
    n.ids[16..27].copy_from_slice(b"0112345678A");
    n.ids[32..43].copy_from_slice(b"0112345678B");
    show(to, "a difference in the last of eleven bytes", n)?;
    n.ids[42] = b'A';
    show(to, "eleven bytes twice", n)?;
    let mut m = full();
    m.ids[2032] = b'A';
    m.ids[2033] = b'A';
    show(to, "the first id at the last of 128 plots", m)
}

// Parents: none for the first plot, an earlier plot for the others.
fn parents(to: &impl Print) -> io::Result<()> {
    let mut n = three_plots();
    n.parents[0] = 1;
    n.through[0] = 1;
    show(to, "a parent and a table at the first plot", n)?;
    n.through[0] = 0;
    show(to, "a parent at the first plot", n)?;
    let mut m = three_plots();
    m.parents[1] = 2;
    show(to, "its own parent", m)?;
    m.parents[1] = 3;
    show(to, "a later parent", m)?;
    m.parents[1] = 255;
    show(to, "a parent past the last", m)?;
    m.parents[1] = 0;
    show(to, "a table and no parent", m)?;
    m.through[1] = 0;
    show(to, "a second root", m)?;
    let mut l = three_plots();
    l.parents[2] = 2;
    show(to, "below the second plot", l)
}

// Tables: none for the first plot, one that stands for the others.
fn tables(to: &impl Print) -> io::Result<()> {
    let mut n = three_plots();
    n.through[0] = 1;
    show(to, "a table at the first plot", n)?;
    let mut m = three_plots();
    m.through[2] = 0;
    show(to, "a parent and no table", m)?;
    m.through[2] = 2;
    show(to, "a table that doesn't stand", m)?;
    m.tables = 2;
    show(to, "a second table that stands", m)?;
    m.through[2] = 255;
    show(to, "a table past the last", m)
}

// One to eight classes.
fn classes(to: &impl Print) -> io::Result<()> {
    let mut n = three_plots();
    n.classes[1] = 0;
    n.domains[1] = 0;
    show(to, "no class", n)?;
    n.domains[1] = 1;
    n.classes[1] = 1;
    show(to, "one class", n)?;
    n.classes[1] = 8;
    n.domains[1] = 255;
    show(to, "eight classes", n)?;
    n.classes[1] = 9;
    show(to, "nine classes", n)?;
    n.classes[1] = 255;
    show(to, "255 classes", n)
}

// One or more of a plot's classes still possible.
fn domains(to: &impl Print) -> io::Result<()> {
    let mut n = three_plots();
    n.domains[2] = 0;
    show(to, "no class possible", n)?;
    n.domains[2] = 4;
    show(to, "the last class possible", n)?;
    n.domains[2] = 8;
    show(to, "a class possible that the plot lacks", n)?;
    n.domains[2] = 15;
    show(to, "all its classes possible and one more", n)
}

// A label that is one of the plot's classes.
fn labels(to: &impl Print) -> io::Result<()> {
    let mut n = three_plots();
    n.labels[0] = 3;
    show(to, "the last class as label", n)?;
    n.labels[0] = 4;
    show(to, "a label that is k", n)?;
    n.labels[0] = 255;
    show(to, "a label past the last class", n)?;
    n.labels[0] = 1;
    n.domains[0] = 6;
    show(to, "a label that isn't possible", n)
}

// The three plots, with other notes beside them.
fn show_notes(to: &impl Print, name: &str, notes: Notes) -> io::Result<()> {
    show_state(to, name, three_plots(), notes)
}

// A tally of the first scanner, and no other line taken.
fn first(accepted: u32, refusals: u32) -> Notes {
    let mut notes = Notes::unused();
    notes.tallies.each[0] = Tally { accepted, refusals };
    notes
}

// A tally of the last scanner, and no other line taken.
fn last(accepted: u32, refusals: u32) -> Notes {
    let mut notes = Notes::unused();
    notes.tallies.each[SCANNERS - 1] = Tally { accepted, refusals };
    notes
}

// The same tally of each scanner.
fn each(accepted: u32, refusals: u32) -> Notes {
    let tally = Tally { accepted, refusals };
    let mut notes = Notes::unused();
    notes.tallies = Tallies {
        each: [tally; SCANNERS],
    };
    notes
}

// No more than a million lines, accepted and refused, of all scanners together.
fn tallies(to: &impl Print) -> io::Result<()> {
    show_notes(to, "a million lines", first(999999, 1))?;
    show_notes(to, "a million lines and one", first(1000000, 1))?;
    show_notes(to, "a million lines and one refused", first(0, 1000001))?;
    show_notes(
        to,
        "lines that add up to one in 32 bits",
        first(u32::MAX, 2),
    )?;
    show_notes(to, "a million lines of the last scanner", last(1000000, 0))?;
    show_notes(
        to,
        "a million lines and one of the last scanner",
        last(1000000, 1),
    )?;
    show_notes(to, "a million lines of sixteen scanners", each(62500, 0))?;
    let mut notes = each(31250, 31250);
    show_notes(
        to,
        "a million lines of sixteen scanners, half of them refused",
        notes,
    )?;
    notes.tallies.each[SCANNERS - 1].refusals = 31251;
    show_notes(to, "a million lines of sixteen scanners and one", notes)?;
    show_notes(to, "a million lines of each scanner", each(1000000, 0))?;
    let notes = each(1 << 27, 1 << 27);
    show_notes(
        to,
        "lines of sixteen scanners that add up to none in 32 bits",
        notes,
    )?;
    let notes = each(u32::MAX, u32::MAX);
    show_notes(
        to,
        "as many lines of each scanner as a tally can say",
        notes,
    )
}

// Lines from one of the scanners, whether it has lines or not.
fn scanners(to: &impl Print) -> io::Result<()> {
    let mut notes = Notes::unused();
    notes.scanner = 15;
    show_notes(to, "the last scanner", notes)?;
    notes.scanner = 16;
    show_notes(to, "a scanner past the last", notes)?;
    notes.tallies.each[0].accepted = 1000000;
    show_notes(to, "a scanner past the last, with a million lines", notes)?;
    let mut notes = Notes::unused();
    notes.scanner = usize::MAX;
    show_notes(to, "as large a scanner as a number can say", notes)
}

// A network of no tables and no plots, and every byte of it 255.
fn garbage() -> Network {
    Network {
        tables: 0,
        rows: [255u8; 128],
        plots: 0,
        ids: [255u8; 2048],
        parents: [255u8; 128],
        through: [255u8; 128],
        classes: [255u8; 128],
        domains: [255u8; 128],
        labels: [255u8; 128],
    }
}

// The three plots, with garbage behind them and in the rows of their table.
fn garbage_behind() -> Network {
    let mut n = three_plots();
    n.rows.fill(255);
    n.ids[48..].fill(255);
    n.parents[3..].fill(255);
    n.through[3..].fill(255);
    n.classes[3..].fill(255);
    n.domains[3..].fill(255);
    n.labels[3..].fill(255);
    n
}

// Whatever lies past the counts.
fn spare_slots(to: &impl Print) -> io::Result<()> {
    show(to, "garbage, and nothing stands", garbage())?;
    let mut n = garbage_behind();
    show(to, "garbage past three plots and a table", n)?;
    n.plots = 4;
    show(to, "garbage in the fourth plot", n)
}

// No byte in the slot behind as many as an id may have.
fn slot_ends(to: &impl Print) -> io::Result<()> {
    let mut n = three_plots();
    n.ids[16..28].copy_from_slice(b"01123456789A");
    show(to, "twelve bytes", n)?;
    n.ids[28..32].copy_from_slice(b"BCDE");
    show(to, "sixteen bytes", n)?;
    n.ids[27] = 0;
    n.ids[28] = b'B';
    n.ids[29..32].fill(0);
    show(to, "a byte behind eleven and a zero", n)?;
    let mut m = three_plots();
    m.ids[31] = b'1';
    show(to, "a byte at the slot's end", m)
}

fn main(rt: HostRuntime) -> io::Result<()> {
    counts(&rt)?;
    ids(&rt)?;
    different_ids(&rt)?;
    parents(&rt)?;
    tables(&rt)?;
    classes(&rt)?;
    domains(&rt)?;
    labels(&rt)?;
    tallies(&rt)?;
    scanners(&rt)?;
    spare_slots(&rt)?;
    slot_ends(&rt)
}
