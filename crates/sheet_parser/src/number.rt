// Bytes, texts and numbers of a sheet, each at its place. A number stands in decimal, with no zeros in front.
ghost use Rattle.std.specs.Prelude.{◌≤◌, ◌<◌, MatchOption, length, get_or};
ghost use Rattle.memory.specs.inner.Test.{Says};
ghost use Rattle.sheet_parser.specs.inner.Numbers.{ByteAt, DigitAt, Stands, Stopped, NumberAt, NoNumber};

// A number that was read, and the place after it.
#[derive(Clone, Copy)]
pub struct Number {
    pub value: u16,
    pub next: usize,
}

// Whether byte c stands at place i.
pub fn byte_at(s: &[u8], i: usize, c: u8) -> bool
    ensures { Says (ByteAt s.now i c) result }
{
    i < s.len() && s[i] == c
}

// Whether the text stands at place `at`.
pub fn text_at(s: &[u8], at: usize, text: &[u8]) -> bool
    requires { at ≤ length s.now }
    ensures { Says (Stands s.now at text.now) result }
{
    s[at..].starts_with(text)
}

// Whether a digit stands at place i.
fn digit_at(s: &[u8], i: usize) -> bool
    ensures { Says (DigitAt s.now i) result }
{
    i < s.len() && b'0' <= s[i] && s[i] <= b'9'
}

// The number that starts with a digit other than 0, up to its fourth digit.
fn read_digits(s: &[u8], at: usize) -> Number
    requires { DigitAt s.now at × (49 ≤ get_or s.now at 0) }
    ensures { Stopped s.now at result.value result.next }
{
    let mut value = u16::from(s[at] - b'0');
    for next in at + 1..s.len() {
        if 1000 <= value || !digit_at(s, next) {
            return Number { value, next };
        }
        value = 10 * value + u16::from(s[next] - b'0');
    }
    Number {
        value,
        next: s.len(),
    }
}

// The number that starts with a digit: 0 alone, or up to its fourth digit.
fn read_first(s: &[u8], at: usize) -> Number
    requires { DigitAt s.now at }
    ensures { Stopped s.now at result.value result.next }
{
    if s[at] == b'0' {
        return Number {
            value: 0,
            next: at + 1,
        };
    }
    read_digits(s, at)
}

// The number at place `at`, which no digit follows.
pub fn read_number(s: &[u8], at: usize) -> Option<Number>
    ensures { MatchOption result (NoNumber s.now at) (λ number. NumberAt s.now at number.value number.next) }
{
    if !digit_at(s, at) {
        return None;
    }
    let number = read_first(s, at);
    if digit_at(s, number.next) {
        return None;
    }
    Some(number)
}
