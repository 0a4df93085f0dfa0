// Bytes and numbers written into a lent buffer, and how long a number is there.
#![tactic(auto)]

ghost use Rattle.std.specs.Prelude.{◌≡◌, ◌+◌, ◌≤◌, [], ◌∷◌, length};
ghost use Rattle.semantics.specs.Text.{decimal};
ghost use Rattle.semantics.specs.Buffers.{written};

// Writes bytes at `at`, and returns the place after them. Rows and ids are stored so in the middle of arrays, where a page has no more to say.
pub fn write_bytes(out: &mut [u8], at: usize, bytes: &[u8]) -> usize
    requires { at + length bytes.now ≤ length out.old }
    ensures next { result ≡ at + length bytes.now }
    ensures written { out.new ≡ written out.old at bytes.now }
{
    let end = at + bytes.len();
    out[at..end].copy_from_slice(bytes);
    end
}

// How many digits a number has.
#[tactic(auto, using(semantics::proofs::Decimals::length_one, semantics::proofs::Decimals::length_more, semantics::proofs::Decimals::u32_length))]
pub fn number_length(n: u32) -> usize
    ensures { result ≡ length (decimal n) }
{
    if n < 10 {
        return 1;
    }
    number_length(n / 10) + 1
}

// Writes a number in base ten at `at`, the digits before the last and then the last, and returns the place after it. One of two digits, as
// most refusals have, needs no call for the first.
#[tactic(auto, using(semantics::proofs::Decimals::length_one, semantics::proofs::Decimals::length_more))]
fn write_number(out: &mut [u8], at: usize, n: u32) -> usize
    requires { at + length (decimal n) ≤ length out.old }
    ensures next { result ≡ at + length (decimal n) }
    ensures written { out.new ≡ written out.old at (decimal n) }
{
    if n < 10 {
        out[at] = b'0' + n as u8;
        return at + 1;
    }
    if n < 100 {
        out[at] = b'0' + (n / 10) as u8;
        out[at + 1] = b'0' + (n % 10) as u8;
        return at + 2;
    }
    let last = write_number(out, at, n / 10);
    out[last] = b'0' + (n % 10) as u8;
    last + 1
}

// A lent buffer that is written from a place on, and the place behind what stands there so far.
#[derive(Drop)]
pub struct Page<'a> {
    out: &'a mut [u8],
    at: usize,
}

impl<'a> Page<'a> {
    ghost use Rattle.writing.specs.Pages.{place_of, HasRoom, IsPageOf, Wrote};

    // A buffer from a place on.
    pub fn new(out: &'a mut [u8], at: usize) -> Page<'a>
        ensures { IsPageOf out.entry at result }
    {
        Page { out, at }
    }

    // The place behind what stands there.
    pub fn place(&self) -> usize
        ensures { result ≡ place_of self.now }
    {
        self.at
    }

    // Writes one byte.
    pub fn byte(&mut self, b: u8)
        requires { HasRoom self.old (length (b ∷ [])) }
        ensures { Wrote self.old (b ∷ []) self.new }
    {
        self.out[self.at] = b;
        self.at += 1;
    }

    // Writes bytes.
    pub fn bytes(&mut self, bytes: &[u8])
        requires { HasRoom self.old (length bytes.now) }
        ensures { Wrote self.old bytes.now self.new }
    {
        self.at = write_bytes(self.out, self.at, bytes);
    }

    // Writes a number in base ten.
    pub fn number(&mut self, n: u32)
        requires { HasRoom self.old (length (decimal n)) }
        ensures { Wrote self.old (decimal n) self.new }
    {
        self.at = write_number(self.out, self.at, n);
    }
}
