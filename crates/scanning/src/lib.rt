// Where a byte stands first in bytes.
#![tactic(auto)]

ghost use Rattle.std.specs.Prelude.{◌≡◌, ◌+◌, ◌≤◌, length, drop};
ghost use Rattle.scanning.specs.Places.{index_of};

// The place of the first byte `b` from `from` on, or the end where there is none. What is searched is short, so that going byte by
// byte is faster than the kit's search, which looks at more bytes at once.
pub fn find(s: &[u8], from: usize, b: u8) -> usize
    requires { from ≤ length s.now }
    ensures { result ≡ from + index_of b (drop from s.now) }
{
    let rest = &s[from..];
    from + rest.iter().position(|&x| x == b).unwrap_or(rest.len())
}
