// What a run keeps beside the book: a tally of the lines of each scanner, and the scanner that lines come from.
#![tactic(auto)]

ghost use Rattle.std.specs.Prelude.{◌≡◌, ◌^◌, ◌<◌};
ghost use Rattle.semantics.specs.Limits.{max_scanners, max_lines};
ghost use Rattle.semantics.specs.Notes.{lines_of, all_lines, notes_hold};
ghost use Rattle.notes.specs.Views.{as_tally, as_tallies, as_notes, all_refused, Unused};
ghost use Rattle.notes.specs.Tallied.{tally_with_line, tallies_with_line};

// The scanners of a run, numbered from 0.
pub const SCANNERS: usize = 16;

// The lines of a run (document 01: a million).
pub const MAX_LINES: u64 = 1000000;

// How many lines of one scanner were accepted and how many refused.
#[derive(Clone, Copy)]
pub struct Tally {
    pub accepted: u32,
    pub refusals: u32,
}

// The tallies of all scanners, by their numbers.
#[derive(Clone, Copy)]
pub struct Tallies {
    pub each: [Tally; SCANNERS],
}

// What a run keeps beside the book.
#[derive(Clone, Copy)]
pub struct Notes {
    pub tallies: Tallies,
    pub scanner: usize,
}

impl Tally {
    // How many lines it has, added in 64 bits: two numbers of 32 bits can add up to a small one in 32 bits.
    pub fn lines(&self) -> u64
        ensures value { result ≡ lines_of (as_tally self.now) }
        ensures short { result < 2 ^ 33 }
    {
        self.accepted as u64 + self.refusals as u64
    }

    // One line more, accepted or refused.
    fn with_line(mut self, accepted: bool) -> Tally
        requires { lines_of (as_tally self) < max_lines }
        ensures { result ≡ tally_with_line accepted self }
    {
        if accepted {
            self.accepted += 1;
        } else {
            self.refusals += 1;
        }
        self
    }
}

impl Tallies {
    // How many lines all of them have, added in 64 bits.
    pub fn lines(&self) -> u64
        ensures { result ≡ all_lines (as_tallies self.now) }
    {
        let mut lines = 0;
        for t in &self.each {
            lines += t.lines();
        }
        lines
    }

    // How many lines were refused, of all scanners together.
    pub fn refused(&self) -> u64
        ensures { result ≡ all_refused (as_tallies self.now) }
    {
        let mut refused = 0;
        for t in &self.each {
            refused += t.refusals as u64;
        }
        refused
    }

    // One line more of a scanner, in place.
    pub fn tally(&mut self, scanner: usize, accepted: bool)
        requires scanner_lt_max_scanners { scanner < max_scanners }
        requires lines_lt_max_lines { all_lines (as_tallies self.old) < max_lines }
        ensures { self.new ≡ tallies_with_line scanner accepted self.old }
    {
        self.each[scanner] = self.each[scanner].with_line(accepted);
    }
}

impl Notes {
    // Those of an unused run.
    pub fn unused() -> Notes
        ensures { Unused result }
    {
        let none = Tally {
            accepted: 0,
            refusals: 0,
        };
        Notes {
            tallies: Tallies {
                each: [none; SCANNERS],
            },
            scanner: 0,
        }
    }

    // The rules of what is kept beside the book, for whatever the struct holds.
    pub fn holds(&self) -> bool
        ensures { result ≡ notes_hold (as_notes self.now) }
    {
        self.scanner < SCANNERS && self.tallies.lines() <= MAX_LINES
    }
}
