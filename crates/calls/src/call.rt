// The calls of the engine, each with what comes of it printed, and with a look at what it may not alter. A write that fails is passed over:
// what the calls give is looked at all the same.
use crate::buffer::{SIZE, filled, is_filled};
use crate::script::Handed;
use network::State;
use notes::Notes;
use performing::PlotCounts;
use refusals::Refusal;

// What a call said: how many bytes it wrote, or the number of its refusal.
fn show_said(to: &impl Print, answer: Result<usize, Refusal>) {
    let _ = match answer {
        Ok(n) => print!(to; "wrote {n}"),
        Err(q) => print!(to; "refused {}", refusals::number_of(q)),
    };
}

// Which scanner lines come from, and each tally that isn't 0, behind the number of its scanner.
fn show_notes(to: &impl Print, notes: &Notes) {
    let _ = print!(to; " {}", notes.scanner);
    for (scanner, tally) in notes.tallies.each.iter().enumerate() {
        if tally.lines() != 0 {
            let _ = print!(to; " {scanner}:{},{}", tally.accepted, tally.refusals);
        }
    }
    let _ = println!(to; "");
}

// The text at the front of the buffer, and a complaint if a byte behind it is altered. A refusal has no text.
fn show_buffer(to: &impl Print, answer: Result<usize, Refusal>, out: &[u8; SIZE]) {
    let n = answer.unwrap_or(0);
    let _ = match out.get(..n) {
        Some(text) => to.write_all(text),
        None => println!(to; "PAST THE BUFFER"),
    };
    if !is_filled(out, n) {
        let _ = println!(to; "ALTERED");
    }
}

impl Handed {
    // One line, which leaves another state: the answer with what is kept beside the network after it, the buffer, and a complaint if a
    // refusal changed the network.
    pub(crate) fn step(&mut self, to: &impl Print, line: &[u8]) {
        let mut out = filled();
        let stepped = engine::step(self.state, line, &mut out[..self.room]);
        let answer = stepped.answer;
        let changed = self.state.network != stepped.state.network;
        self.state = stepped.state;
        show_said(to, answer);
        show_notes(to, &self.state.notes);
        show_buffer(to, answer, &out);
        if answer.is_err() && changed {
            let _ = println!(to; "CHANGED");
        }
    }

    // A call that gives no state back: the end of the input, or the text of the network.
    pub(crate) fn ask<F: Fn(State, &mut [u8]) -> Result<usize, Refusal>>(
        &self,
        to: &impl Print,
        call: F,
    )
        requires { F.IsAlwaysCallable call }
    {
        let mut out = filled();
        let answer = call(self.state, &mut out[..self.room]);
        show_said(to, answer);
        let _ = println!(to; "");
        show_buffer(to, answer, &out);
    }
}

// The counts of a plot, as many as it has classes, and what is believed of it.
fn show_counts(to: &impl Print, found: &PlotCounts) {
    let _ = print!(to; "counts {}:", found.classes);
    for count in found.counts.iter().take(found.classes) {
        let _ = print!(to; " {count}");
    }
    let _ = match found.belief {
        None => println!(to; " belief -"),
        Some(class) => println!(to; " belief {class}"),
    };
}

// What a plot's supports are.
pub(crate) fn supports_of(to: &impl Print, s: &State, id: &[u8]) {
    match engine::supports_of(*s, id) {
        Err(q) => {
            let _ = println!(to; "refused {}", refusals::number_of(q));
        }
        Ok(found) => show_counts(to, &found),
    }
}
