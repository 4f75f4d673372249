// The names of kept states.
ghost use Rattle.std.specs.Prelude.{◌≡◌, ◌<◌, MatchOption};
ghost use Rattle.shelf.specs.Names.{same, place_of};

// Whether two byte strings are the same.
fn same_bytes(a: &[u8], b: &[u8]) -> bool
    ensures { result ≡ same a.now b.now }
{
    if a.len() != b.len() {
        return false;
    }
    for (i, byte) in b.iter().enumerate() {
        if a[i] != *byte {
            return false;
        }
    }
    true
}

// The place of a name, from 0 to 2, if it is one of the three.
pub fn place_of(name: &[u8]) -> Option<u16>
    ensures { MatchOption result (place_of name.now ≡ 3) (λ i. (i ≡ place_of name.now) × (i < 3)) }
{
    if same_bytes(name, b"MORNING ") {
        return Some(0);
    }
    if same_bytes(name, b"NOON    ") {
        return Some(1);
    }
    if same_bytes(name, b"CLOSE   ") {
        return Some(2);
    }
    None
}
