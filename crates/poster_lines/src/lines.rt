// The lines of one wave, the foot and the filling. Each function writes at `at` and answers the place after what it wrote.
ghost use Rattle.std.specs.Prelude.{[], map, ◌≡◌, ◌+◌, ◌*◌, ◌/◌, ◌≤◌, ◌<◌, min, length, get_or, replicate};
ghost use Rattle.text.specs.Text.{joined};
ghost use Rattle.text.specs.Places.{Room, Puts};
ghost use Rattle.wave_lines.specs.Lines.{letters};
ghost use Rattle.wave_lines.specs.Foot.{foot_text};
ghost use Rattle.poster_lines.specs.Poster.{right_aligned, padded, poster_line, foot_line};
ghost use Rattle.poster_lines.specs.inner.Lines.{Small, mark_at, lines_with};

use crate::column::{put_aligned, put_end};
use memory::Tally;
use rule::{Bank, Wave};
use text::put_byte;
use wave_lines::{letter, put_foot};

// The banks of a line.
const LINE_BANKS: usize = 7;

// Banks, each in its five columns.
fn put_banks(out: &mut [u8], at: usize, banks: &[u16]) -> usize
    requires { Small banks.now × (at + 5 * length banks.now ≤ length out.old) }
    ensures { Puts (joined (map right_aligned banks.now)) at out.old result out.new }
{
    let mut next = at;
    for b in banks {
        next = put_aligned(out, next, Bank(*b));
    }
    next
}

// A line: its mark, a space, its banks, and its end.
fn put_line(out: &mut [u8], at: usize, mark: u8, banks: &[u16]) -> usize
    requires { Small banks.now × (length banks.now ≤ 7) × (at + 41 ≤ length out.old) }
    ensures { Puts (poster_line mark banks.now) at out.old result out.new }
{
    let space = put_byte(out, at, mark);
    let first = put_byte(out, space, b' ');
    let end = put_banks(out, first, banks);
    put_end(out, end, end - at)
}

// The mark of line i of wave c: its letter, and a space where the wave is continued.
fn mark_of(c: Wave, i: usize) -> u8
    requires { c.0 < 24 }
    ensures { result ≡ mark_at (get_or letters c.0 0) i }
{
    if i == 0 { letter(c) } else { b' ' }
}

// Line i of wave c with these banks.
fn put_line_at(out: &mut [u8], at: usize, c: Wave, banks: &[u16], i: usize) -> usize
    requires { (c.0 < 24)
        × Small banks.now
        × (length banks.now ≤ 1024)
        × (7 * i < length banks.now)
        × (at + 41 ≤ length out.old) }
    ensures { Puts (get_or (lines_with c.0 banks.now) i []) at out.old result out.new }
{
    let from = LINE_BANKS * i;
    let to = (from + LINE_BANKS).min(banks.len());
    put_line(out, at, mark_of(c, i), &banks[from..to])
}

// How many lines these many banks take.
pub fn lines_for(banks: usize) -> usize
    requires { banks ≤ 1024 }
    ensures { result ≡ (banks + 6) / 7 }
{
    banks.div_ceil(LINE_BANKS)
}

// The lines of wave c with these banks.
pub fn put_wave(out: &mut [u8], at: usize, c: Wave, banks: &[u16]) -> usize
    requires { (c.0 < 24)
        × Small banks.now
        × (length banks.now ≤ 1024)
        × Room (joined (lines_with c.0 banks.now)) at out.old }
    ensures { Puts (joined (lines_with c.0 banks.now)) at out.old result out.new }
{
    let mut next = at;
    for i in 0..lines_for(banks.len()) {
        next = put_line_at(out, next, c, banks, i);
    }
    next
}

// The foot of a plan with this tally, and its end.
pub fn put_foot_line(out: &mut [u8], at: usize, tally: Tally) -> usize
    requires { (length (foot_text tally.banks tally.clashes) ≤ 40) × (at + 41 ≤ length out.old) }
    ensures { Puts (foot_line tally.banks tally.clashes) at out.old result out.new }
{
    let end = put_foot(out, at, tally);
    put_end(out, end, end - at)
}

// Lines of 40 spaces.
pub fn put_blank_lines(out: &mut [u8], at: usize, count: usize) -> usize
    requires { at + 41 * count ≤ length out.old }
    ensures { Puts (joined (replicate count (padded []))) at out.old result out.new }
{
    let mut next = at;
    for _line in 0..count {
        next = put_end(out, next, 0);
    }
    next
}
