// A sheet: its first line, the lines of its waves, its foot.
ghost use Rattle.std.specs.Prelude.{◌≡◌, ◌≤◌, ◌<◌, ◌+◌, MatchOption, MatchResult, length, drop};
ghost use Rattle.memory.specs.inner.Test.{Says};
ghost use Rattle.sheet_writer.specs.Sheet.{last_text};
ghost use Rattle.sheet_parser.specs.inner.Lines.{Enough, HeadAt, NoHead, Lines, NoLines, SheetRead, NoneNamed, AllNamed};
ghost use Rattle.sheet_parser.specs.Sheets.{Fault};

use crate::line::{UNNAMED, read_line};
use crate::number::{byte_at, read_number, text_at};
use memory::Tally;
use rule::{MOST_WAVES, Wave};
use text::put_byte;
use wave_lines::{foot_length, put_foot};

// The first line: how many waves it says there are, and the place after it.
#[derive(Clone, Copy)]
struct Head {
    waves: u16,
    next: usize,
}

// The bytes of the longest foot, `TOTAL 65535 65535`, and its line feed.
const FOOT_BYTES: usize = 18;

// The first line.
fn read_head(s: &[u8]) -> Option<Head>
    ensures { MatchOption result (NoHead s.now) (λ head. HeadAt s.now head.waves head.next) }
{
    if !text_at(s, 0, b"WAVES ") {
        return None;
    }
    let count = read_number(s, 6)?;
    if MOST_WAVES < count.value || !byte_at(s, count.next, b'\n') {
        return None;
    }
    Some(Head {
        waves: count.value,
        next: count.next + 1,
    })
}

// The lines of k waves, of n banks: the place after them, or the line, from 1, at fault.
fn read_lines(s: &[u8], from: usize, n: u16, k: u16, cells: &mut [u16]) -> Result<usize, u16>
    requires head { HeadAt s.now k from }
    requires enough { Enough cells.old n }
    requires none_named { NoneNamed cells.old n }
    ensures { MatchResult result (λ next. Lines s.now cells.new n k k next) (λ line. NoLines s.now n × Fault n s.now line) }
{
    let mut next = from;
    for c in 0..k {
        next = read_line(s, next, n, Wave(c), cells).ok_or(c + 2)?;
    }
    Ok(next)
}

// Whether the bytes from `at` on are the foot of a plan with this tally, and its line feed.
fn foot_at(s: &[u8], at: usize, tally: Tally) -> bool
    requires { at ≤ length s.now }
    ensures { Says (drop at s.now ≡ last_text tally.banks tally.clashes) result }
{
    let feed = foot_length(tally);
    let length = feed + 1;
    let mut foot = [0u8; FOOT_BYTES];
    put_foot(&mut foot, 0, tally);
    put_byte(&mut foot, feed, b'\n');
    s[at..] == foot[..length]
}

// Whether every bank is named.
fn all_named(cells: &[u16], n: u16) -> bool
    requires { n ≤ length cells.now }
    ensures { Says (AllNamed cells.now n) result }
{
    cells[..usize::from(n)].iter().all(|&wave| wave < UNNAMED)
}

// Reads a sheet of a plan with this tally: each bank's wave goes into its cell. Answers how many waves it has, or the line, from 1, at fault.
pub fn read_sheet(s: &[u8], tally: Tally, cells: &mut [u16]) -> Result<u16, u16>
    requires enough { Enough cells.old tally.banks }
    requires none_named { NoneNamed cells.old tally.banks }
    ensures { SheetRead result s.now cells.new tally.banks tally.clashes }
{
    let n = tally.banks;
    let head = read_head(s).ok_or(1u16)?;
    let foot = read_lines(s, head.next, n, head.waves, cells)?;
    if !foot_at(s, foot, tally) || !all_named(cells, n) {
        return Err(head.waves + 2);
    }
    Ok(head.waves)
}
