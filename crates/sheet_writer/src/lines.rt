// The lines of a sheet. Each function writes at `at` and answers the place after what it wrote.
ghost use Rattle.std.specs.Prelude.{◌≤◌, ◌<◌, length};
ghost use Rattle.text.specs.Places.{Room, Puts};
ghost use Rattle.sheet_writer.specs.Sheet.{head_text, last_text};
ghost use Rattle.sheet_writer.specs.inner.Cells.{member_text, members_text, sheet_wave, sheet_waves};

use memory::Tally;
use rule::{Bank, Wave};
use text::{put_byte, put_number, put_text};
use wave_lines::{letter, put_foot};

// Bank b, whose wave is w, if it stands on the line of wave c.
fn put_member(out: &mut [u8], at: usize, w: Wave, c: Wave, b: Bank) -> usize
    requires { Room (member_text w.0 c.0 b.0) at out.old }
    ensures { Puts (member_text w.0 c.0 b.0) at out.old result out.new }
{
    if w != c {
        return at;
    }
    let next = put_byte(out, at, b' ');
    put_number(out, next, b.0)
}

// The banks of wave c, ascending, of n banks in all. Over the bank numbers, which are what is written. By itself beside poster_writer's `gather`:
// that one leaves cells, this one text, and a shared walk would take a closure that writes to the output.
fn put_members(out: &mut [u8], at: usize, waves: &[u16], n: u16, c: Wave) -> usize
    requires { (n ≤ length waves.now) × Room (members_text waves.now c.0 n) at out.old }
    ensures { Puts (members_text waves.now c.0 n) at out.old result out.new }
{
    let mut next = at;
    for b in 0..n {
        next = put_member(out, next, Wave(waves[usize::from(b)]), c, Bank(b));
    }
    next
}

// The line of wave c.
fn put_line(out: &mut [u8], at: usize, waves: &[u16], n: u16, c: Wave) -> usize
    requires { (c.0 < 24) × (n ≤ length waves.now) × Room (sheet_wave waves.now n c.0) at out.old }
    ensures { Puts (sheet_wave waves.now n c.0) at out.old result out.new }
{
    let banks = put_byte(out, at, letter(c));
    let feed = put_members(out, banks, waves, n, c);
    put_byte(out, feed, b'\n')
}

// The lines of the first k waves.
pub fn put_lines(out: &mut [u8], at: usize, waves: &[u16], n: u16, k: u16) -> usize
    requires { (k ≤ 24) × (n ≤ length waves.now) × Room (sheet_waves waves.now n k) at out.old }
    ensures { Puts (sheet_waves waves.now n k) at out.old result out.new }
{
    let mut next = at;
    for c in 0..k {
        next = put_line(out, next, waves, n, Wave(c));
    }
    next
}

// The last line.
pub fn put_last(out: &mut [u8], at: usize, tally: Tally) -> usize
    requires { Room (last_text tally.banks tally.clashes) at out.old }
    ensures { Puts (last_text tally.banks tally.clashes) at out.old result out.new }
{
    let next = put_foot(out, at, tally);
    put_byte(out, next, b'\n')
}

// The first line, at the front.
pub fn put_head(out: &mut [u8], k: u16) -> usize
    requires { length (head_text k) ≤ length out.old }
    ensures { Puts (head_text k) 0 out.old result out.new }
{
    let number = put_text(out, 0, b"WAVES ");
    let end = put_number(out, number, k);
    put_byte(out, end, b'\n')
}
