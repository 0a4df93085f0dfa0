// The script, line by line: what each says is done to the state, or is called.
ghost use Rattle.std.specs.Prelude.{◌≤◌};
ghost use Rattle.calls.specs.declared.buffer.TheConstants.{SIZE};

use crate::buffer::SIZE;
use crate::call;
use crate::meddle::{fill_spare, put_byte};
use crate::numbers::{number, numbers, three_numbers};
use network::State;
use notes::Tally;

// The bytes of the buffer that are lent at the start.
const FIRST_ROOM: usize = 4096;

// What the next call is handed: the state, and how many bytes of the buffer.
#[derive(Drop)]
pub(crate) struct Handed {
    pub(crate) state: State,
    pub(crate) room: usize,
    ghost room_bound: { room ≤ SIZE },
}

impl Handed {
    // Does what a line says, if it says anything.
    fn obey(&mut self, to: &impl Print, line: &[u8]) {
        let Some((first, rest)) = line.split_first() else {
            return;
        };
        match first {
            b'>' => self.step(to, rest),
            b'?' => call::supports_of(to, &self.state, rest),
            b'.' => self.ask(to, engine::end),
            b'=' => self.ask(to, engine::save),
            b'~' => self.generate(to, rest),
            b'0' => self.state = engine::empty(),
            b'#' => self.set_room(number(rest)),
            b'@' => self.set_tally(rest),
            b'^' => self.state.notes.scanner = number(rest) as usize,
            b'%' => self.state.network.plots = number(rest) as usize,
            b'$' => self.state.network.tables = number(rest) as usize,
            b'!' => self.put_byte(rest),
            b'*' => self.fill_spare(rest),
            _ => {}
        }
    }

    // The start and the number of plots that a line says, the start held at the largest.
    fn generate(&self, to: &impl Print, line: &[u8]) {
        let (start, plots) = numbers(line);
        let start = u32::try_from(start).unwrap_or(u32::MAX);
        self.ask(to, |_, out| drawing::generate(start, plots, out));
    }

    // Another room. A number past the buffer changes nothing.
    fn set_room(&mut self, room: u64) {
        if room <= SIZE as u64 {
            self.room = room as usize;
        }
    }

    // Another tally of the scanner that a line says, each number of it held at the largest. A scanner that there isn't changes nothing.
    fn set_tally(&mut self, line: &[u8]) {
        let (scanner, accepted, refusals) = three_numbers(line);
        if let Some(tally) = self.state.notes.tallies.each.get_mut(scanner as usize) {
            *tally = Tally {
                accepted: u32::try_from(accepted).unwrap_or(u32::MAX),
                refusals: u32::try_from(refusals).unwrap_or(u32::MAX),
            };
        }
    }

    // A byte put where a line says. A number past 255 is no byte, and changes nothing.
    fn put_byte(&mut self, line: &[u8]) {
        if let Some((letter, rest)) = line.split_first() {
            let (place, byte) = numbers(rest);
            if let Ok(byte) = u8::try_from(byte) {
                put_byte(&mut self.state.network, *letter, place as usize, byte);
            }
        }
    }

    // The byte that a line says, everywhere past the counts. A number past 255 changes nothing.
    fn fill_spare(&mut self, line: &[u8]) {
        if let Ok(byte) = u8::try_from(number(line)) {
            fill_spare(&mut self.state.network, byte);
        }
    }
}

// Does what all lines of a script say, from an unused run on. Byte 10 ends a line.
pub(crate) fn obey_all(to: &impl Print, bytes: &[u8]) {
    let mut handed = Handed {
        state: engine::empty(),
        room: FIRST_ROOM,
    };
    for line in bytes.split(|b| *b == b'\n') {
        handed.obey(to, line);
    }
}
