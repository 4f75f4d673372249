// Banks in their columns, and lines to their end. Each function writes at `at` and answers the place after what it wrote.
ghost use Rattle.std.specs.Prelude.{[], ◌∷◌, ◌++◌, ◌≡◌, ◌+◌, ◌-◌, ◌≤◌, ◌<◌, length, replicate};
ghost use Rattle.text.specs.Numbers.{decimal};
ghost use Rattle.text.specs.Places.{Puts};
ghost use Rattle.poster_lines.specs.Poster.{right_aligned};

use rule::Bank;
use text::{put_byte, put_number};
use wave_lines::digits;

// The characters of a line, before its line feed.
const LINE_CHARACTERS: usize = 40;

// The columns of a bank.
const COLUMNS: usize = 5;

// Spaces.
fn put_spaces(out: &mut [u8], at: usize, count: usize) -> usize
    requires { at + count ≤ length out.old }
    ensures { Puts (replicate count 32) at out.old result out.new }
{
    let next = at + count;
    out[at..next].fill(b' ');
    next
}

// The columns before the digits of a bank.
fn columns_before(b: Bank) -> usize
    ensures { result ≡ 5 - length (decimal b.0) }
{
    COLUMNS - digits(b.0)
}

// A bank, right-aligned in five columns.
pub fn put_aligned(out: &mut [u8], at: usize, b: Bank) -> usize
    requires { (b.0 < 1024) × (at + 5 ≤ length out.old) }
    ensures { Puts (right_aligned b.0) at out.old result out.new }
{
    let number = put_spaces(out, at, columns_before(b));
    put_number(out, number, b.0)
}

// The end of a line that has `used` characters: spaces to 40, and a line feed.
pub fn put_end(out: &mut [u8], at: usize, used: usize) -> usize
    requires { (used ≤ 40) × (at + (40 - used + 1) ≤ length out.old) }
    ensures { Puts (replicate (40 - used) 32 ++ (10 ∷ [])) at out.old result out.new }
{
    let end = put_spaces(out, at, LINE_CHARACTERS - used);
    put_byte(out, end, b'\n')
}
