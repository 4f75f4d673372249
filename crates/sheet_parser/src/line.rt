// A line of a sheet: the letter of a wave, then its banks, ascending, each after one space. The wave of each bank that is named goes into its cell.
ghost use Rattle.std.specs.Prelude.{◌≡◌, ℕ, ◌+◌, ◌≤◌, ◌<◌, MatchOption, length, get_or};
ghost use Rattle.wave_lines.specs.Lines.{letters};
ghost use Rattle.memory.specs.inner.Test.{Says};
ghost use Rattle.sheet_parser.specs.inner.Numbers.{ByteAt};
ghost use Rattle.sheet_parser.specs.inner.Lines.{Fits, Takes, NoBank, Enough, Banked, NoLine, LineAt};

use crate::number::{byte_at, read_number};
use rule::{Bank, Wave};
use wave_lines::letter;

// The cell of a bank that is not named so far: it holds no wave.
pub const UNNAMED: u16 = 24;

// Where reading a line has come to: the next place, and the lowest bank that may stand there.
#[derive(Clone, Copy)]
pub struct Place {
    pub next: usize,
    pub low: u16,
}

// Whether bank b can come next.
fn fits(cells: &[u16], n: u16, low: u16, b: Bank) -> bool
    requires { n ≤ length cells.now }
    ensures { Says (Fits cells.now n low b.0) result }
{
    b.0 < n && low <= b.0 && cells[usize::from(b.0)] == UNNAMED
}

// Takes the bank whose number stands at `at` for wave c, if it can come next.
fn take_bank(s: &[u8], at: usize, n: u16, c: Wave, low: u16, cells: &mut [u16]) -> Option<Place>
    requires { (at ≤ length s.now) × Enough cells.old n }
    ensures { MatchOption result (NoBank s.now cells.old n low at) (λ place. Takes s.now cells.old n c.0 low at place.next place.low cells.new) }
{
    let number = read_number(s, at)?;
    let b = number.value;
    if !fits(cells, n, low, Bank(b)) {
        return None;
    }
    cells[usize::from(b)] = c.0;
    Some(Place {
        next: number.next,
        low: b + 1,
    })
}

// The banks of wave c, whose letter stands at `from`, as far as they go.
fn read_banks(s: &[u8], from: usize, n: u16, c: Wave, cells: &mut [u16]) -> Option<Place>
    requires letter { ByteAt s.now from (get_or letters c.0 0) }
    requires enough { Enough cells.old n }
    requires none_named { (b : ℕ) → b < n → get_or cells.old b 0 ≡ c.0 → ⊥ }
    ensures { MatchOption result (NoLine s.now cells.old n c.0 from)
        (λ place. Banked s.now cells.old cells.new n c.0 from place.low place.next) }
{
    let mut place = Place {
        next: from + 1,
        low: 0,
    };
    // No `for`: a bank takes as many bytes as its number has digits.
    while byte_at(s, place.next, b' ') {
        place = take_bank(s, place.next + 1, n, c, place.low, cells)?;
    }
    Some(place)
}

// The line of wave c at `from`: the place after it.
pub fn read_line(s: &[u8], from: usize, n: u16, c: Wave, cells: &mut [u16]) -> Option<usize>
    requires is_wave { c.0 < 24 }
    requires enough { Enough cells.old n }
    requires none_named { (b : ℕ) → b < n → get_or cells.old b 0 ≡ c.0 → ⊥ }
    ensures { MatchOption result (NoLine s.now cells.old n c.0 from) (λ next. LineAt s.now cells.old cells.new n c.0 from next) }
{
    if !byte_at(s, from, letter(c)) {
        return None;
    }
    let place = read_banks(s, from, n, c, cells)?;
    if place.low == 0 || !byte_at(s, place.next, b'\n') {
        return None;
    }
    Some(place.next + 1)
}
