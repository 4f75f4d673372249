// The reader of a number.
ghost use Rattle.std.specs.Prelude.{◌≡◌, ◌≤◌, length};
ghost use Rattle.text.specs.Numbers.{number};
ghost use Rattle.text.specs.inner.Digits.{digits_value};

// The most digits of a number.
const MOST_DIGITS: usize = 4;

// Reads a part as a number.
#[tactic(auto, unfolding(crate::specs::Numbers::number, crate::specs::Numbers::is_number, crate::specs::inner::Digits::digits_value))]
pub fn read_number(s: &[u8]) -> Option<u16>
    ensures { result ≡ number s.now }
{
    match s.len() {
        1..=MOST_DIGITS => read_digits(s),
        _ => None,
    }
}

// The value of at most four digits.
fn read_digits(s: &[u8]) -> Option<u16>
    requires { length s.now ≤ 4 }
    ensures { result ≡ digits_value s.now }
{
    let mut value: u16 = 0;
    for x in s {
        match *x {
            b'0'..=b'9' => value = 10 * value + u16::from(*x - b'0'),
            _ => return None,
        }
    }
    Some(value)
}
