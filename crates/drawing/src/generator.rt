// The generator: numbers that follow one another from a start.
ghost use Rattle.std.specs.Prelude.{◌≡◌, ◌*◌, ◌%◌, ◌^◌, ◌<◌};
ghost use Rattle.semantics.specs.Drawing.{next_state, draw};

use std::num::wrapping_add_u32;

// A product that wraps at 2^32. In 64 bits it fits.
fn wrapping_mul(a: u32, b: u32) -> u32
    ensures { result ≡ a * b % 2 ^ 32 }
{
    (a as u64 * b as u64 % (1 << 32)) as u32
}

// A generator, by its state.
#[derive(Clone, Copy)]
pub struct Generator {
    pub state: u32,
}

impl Generator {
    // A generator whose state is the start.
    pub fn new(start: u32) -> Generator
        ensures { result.state ≡ start }
    {
        Generator { state: start }
    }

    // A draw below n, from the state after one step.
    pub fn draw(&mut self, n: usize) -> usize
        requires { 0 < n }
        ensures value { result ≡ draw n self.old.state }
        ensures state { self.new.state ≡ next_state self.old.state }
    {
        self.state = wrapping_add_u32(wrapping_mul(1664525, self.state), 1013904223);
        self.state as usize / 65536 % n
    }
}
