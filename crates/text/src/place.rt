// Where a byte stands.
ghost use Rattle.std.specs.Prelude.{◌≤◌, length};
ghost use Rattle.text.specs.Places.{Finds};

// The place of the first byte c from `from` on, or the length.
pub fn find(s: &[u8], from: usize, c: u8) -> usize
    requires { from ≤ length s.now }
    ensures { Finds s.now from c result }
{
    match s[from..].iter().position(|x| *x == c) {
        Some(i) => from + i,
        None => s.len(),
    }
}
