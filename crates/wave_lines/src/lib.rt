// The waves of a plan as lines, for every text of them: the wave letters and the foot.
#![tactic(auto)]

mod foot;

ghost use Rattle.std.specs.Prelude.{◌≡◌, ◌<◌, get_or};
ghost use Rattle.wave_lines.specs.Lines.{letters};

pub use foot::{digits, foot_length, put_foot};
use rule::Wave;

// The wave letters: A to Z without I and O.
const LETTERS: [u8; 24] = *b"ABCDEFGHJKLMNPQRSTUVWXYZ";

// The letter of a wave.
pub fn letter(c: Wave) -> u8
    requires { c.0 < 24 }
    ensures { result ≡ get_or letters c.0 0 }
{
    LETTERS[usize::from(c.0)]
}
