// A state that is known to keep the rules.
ghost use Rattle.std.specs.Prelude.{◌≡◌, true};
ghost use Rattle.semantics.specs.Notes.{all_lines, notes_hold};
ghost use Rattle.semantics.specs.Rules.{network_holds};
ghost use Rattle.notes.specs.Views.{as_tallies, as_notes};
ghost use Rattle.network.specs.View.{view};

use crate::{Network, State};
use notes::Notes;

// A state that keeps the rules, by its parts: whoever has one needn't test it, and whoever changes it shows that they are kept. How many
// lines are taken stands beside the tallies, so that no line has to add them up.
#[derive(Clone, Copy)]
pub struct Sound {
    pub network: Network,
    pub notes: Notes,
    lines: u64,
    ghost network_rules: { network_holds (view network) ≡ true },
    ghost notes_rules: { notes_hold (as_notes notes) ≡ true },
    ghost lines_told: { lines ≡ all_lines (as_tallies notes.tallies) },
}

impl Sound {
    ghost use Rattle.std.specs.Prelude.{false, IfSome, is_some};
    ghost use Rattle.semantics.specs.Engine.{holds, run_over};
    ghost use Rattle.network.specs.View.{view_state};
    ghost use Rattle.network.specs.Unused.{ZeroRun, unused_with};
    ghost use Rattle.network.specs.Sound.{whole, with_line};

    // The state of an unused run.
    pub fn new() -> Sound
        ensures { ZeroRun (whole result) }
    {
        Sound::of_network(State::empty().network)
    }

    // A network that is known to keep the rules, in a run that took no line: what is asked of a sound state is asked of any such network
    // so, with no test.
    pub fn of_network(network: Network) -> Sound
        requires { network_holds (view network) ≡ true }
        ensures { whole result ≡ unused_with network }
    {
        let notes = Notes::unused();
        Sound {
            network,
            notes,
            lines: 0,
        }
    }

    // A state that was handed in, if it keeps the rules. It is laid into its callers: a call between would copy the state twice more.
    #[inline(always)]
    pub fn of(state: State) -> Option<Sound>
        ensures kept { is_some result ≡ holds (view_state state) }
        ensures same { IfSome result (λ s. whole s ≡ state) }
    {
        if !state.holds() {
            return None;
        }
        Some(Sound {
            network: state.network,
            notes: state.notes,
            lines: state.notes.tallies.lines(),
        })
    }

    // The state, to be handed out.
    pub fn state(&self) -> State
        ensures { result ≡ whole self.now }
    {
        let network = self.network;
        let notes = self.notes;
        State { network, notes }
    }

    // Whether a run has taken all its lines.
    pub fn run_over(&self) -> bool
        ensures { result ≡ run_over (view_state (whole self.now)) }
    {
        notes::MAX_LINES <= self.lines
    }

    // One line more of the scanner that lines come from.
    pub fn tally(&mut self, accepted: bool)
        requires { run_over (view_state (whole self.old)) ≡ false }
        ensures { whole self.new ≡ with_line accepted (whole self.old) }
    {
        self.notes.tallies.tally(self.notes.scanner, accepted);
        self.lines += 1;
    }
}
