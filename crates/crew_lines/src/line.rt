// The lines of a day. Each function writes at `at` and answers the place after what it wrote.
ghost use Rattle.std.specs.Prelude.{◌≡◌, ℕ, ◌+◌, ◌≤◌, ◌<◌, length, get_or};
ghost use Rattle.text.specs.Places.{Room, Puts};
ghost use Rattle.sheet_writer.specs.inner.Cells.{member_text, members_text};
ghost use Rattle.crew_lines.specs.Lines.{head_text};
ghost use Rattle.crew_lines.specs.inner.Cells.{lowest_in, step_in, steps_in};

use rule::{Bank, Wave};
use text::{put_byte, put_number};
use wave_lines::letter;

// Bank b, if its step is k.
fn put_member(out: &mut [u8], at: usize, step: u16, k: u16, b: Bank) -> usize
    requires { Room (member_text step k b.0) at out.old }
    ensures { Puts (member_text step k b.0) at out.old result out.new }
{
    if step != k {
        return at;
    }
    let next = put_byte(out, at, b' ');
    put_number(out, next, b.0)
}

// The banks of step k, ascending, of n banks in all.
fn put_members(out: &mut [u8], at: usize, steps: &[u16], n: u16, k: u16) -> usize
    requires { (n ≤ length steps.now) × Room (members_text steps.now k n) at out.old }
    ensures { Puts (members_text steps.now k n) at out.old result out.new }
{
    let mut next = at;
    // By number, which is written too.
    for b in 0..n {
        next = put_member(out, next, steps[usize::from(b)], k, Bank(b));
    }
    next
}

// The lowest bank of step k, of n banks in all, or 0.
fn lowest(steps: &[u16], n: u16, k: u16) -> usize
    requires { (0 < n) × (n ≤ length steps.now) }
    ensures { (result ≡ lowest_in steps.now k n) × (result < n) }
{
    let banks = &steps[..usize::from(n)];
    banks.iter().position(|&step| step == k).unwrap_or(0)
}

// The number of step k, and the letter of its wave.
fn put_head(out: &mut [u8], at: usize, k: u16, w: Wave) -> usize
    requires { (w.0 < 24) × Room (head_text k w.0) at out.old }
    ensures { Puts (head_text k w.0) at out.old result out.new }
{
    let space = put_number(out, at, k);
    let next = put_byte(out, space, b' ');
    put_byte(out, next, letter(w))
}

// The line of step k, of n banks in all.
fn put_step(out: &mut [u8], at: usize, waves: &[u16], steps: &[u16], n: u16, k: u16) -> usize
    requires { (0 < n) × (n ≤ length waves.now) × (n ≤ length steps.now) × Room (step_in waves.now steps.now n k) at out.old
        × ((b : ℕ) → b < n → get_or waves.now b 0 < 24) }
    ensures { Puts (step_in waves.now steps.now n k) at out.old result out.new }
{
    let b = lowest(steps, n, k);
    let banks = put_head(out, at, k, Wave(waves[b]));
    let feed = put_members(out, banks, steps, n, k);
    put_byte(out, feed, b'\n')
}

// The lines of so many steps, of n banks in all.
pub fn put_steps(
    out: &mut [u8],
    at: usize,
    waves: &[u16],
    steps: &[u16],
    n: u16,
    total: u16,
) -> usize
    requires { (total ≤ n) × (n ≤ length waves.now) × (n ≤ length steps.now) × Room (steps_in waves.now steps.now n total) at out.old
        × ((b : ℕ) → b < n → get_or waves.now b 0 < 24) }
    ensures { Puts (steps_in waves.now steps.now n total) at out.old result out.new }
{
    let mut next = at;
    for k in 0..total {
        next = put_step(out, next, waves, steps, n, k + 1);
    }
    next
}
