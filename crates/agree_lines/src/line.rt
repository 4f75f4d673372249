// The lines on a sheet. Each function writes at `at`, or at the front, and answers the place after what it wrote.
ghost use Rattle.std.specs.Prelude.{◌+◌, ◌≤◌, ◌<◌, length};
ghost use Rattle.text.specs.Places.{Puts};
ghost use Rattle.agree_lines.specs.Lines.{numbered, accepted_text, no_sheet_text, many_text, clash_text};

use list_program::put_named;
use rule::{Bank, Wave};
use text::put_text;
use wave_lines::letter;

// The most bytes of the lines on a sheet: two banks of five digits that clash.
pub const VERDICT_BYTES: usize = 49;

// A number between two texts.
fn put_numbered(out: &mut [u8], at: usize, text: &[u8], x: u16, after: &[u8]) -> usize
    requires { at + (length text.now + (5 + length after.now)) ≤ length out.old }
    ensures { Puts (numbered text.now x after.now) at out.old result out.new
        × (result ≤ at + (length text.now + (5 + length after.now))) }
{
    let next = put_named(out, at, text, x);
    put_text(out, next, after)
}

// `ACCEPTED`, and whether the sheet is the planner's own.
pub fn put_accepted(out: &mut [u8], own: bool) -> usize
    requires { 49 ≤ length out.old }
    ensures { Puts (accepted_text own) 0 out.old result out.new × (result ≤ 49) }
{
    if own {
        put_text(out, 0, b"ACCEPTED\nthe planner's own sheet\n")
    } else {
        put_text(out, 0, b"ACCEPTED\nnot the planner's own sheet\n")
    }
}

// `REFUSED 26 line l`.
pub fn put_no_sheet(out: &mut [u8], line: u16) -> usize
    requires { 49 ≤ length out.old }
    ensures { Puts (no_sheet_text line) 0 out.old result out.new × (result ≤ 49) }
{
    put_numbered(out, 0, b"REFUSED 26 line ", line, b"\n")
}

// `REFUSED 27 more than k waves`.
pub fn put_many(out: &mut [u8], k: u16) -> usize
    requires { 49 ≤ length out.old }
    ensures { Puts (many_text k) 0 out.old result out.new × (result ≤ 49) }
{
    put_numbered(out, 0, b"REFUSED 27 more than ", k, b" waves\n")
}

// `REFUSED 27 banks a and b clash in wave x`, of wave w.
pub fn put_clash(out: &mut [u8], a: Bank, b: Bank, w: Wave) -> usize
    requires { (w.0 < 24) × (49 ≤ length out.old) }
    ensures { Puts (clash_text a.0 b.0 w.0) 0 out.old result out.new × (result ≤ 49) }
{
    let second = put_numbered(out, 0, b"REFUSED 27 banks ", a.0, b" and");
    let wave = put_numbered(out, second, b" ", b.0, b" clash in wave ");
    put_text(out, wave, &[letter(w), b'\n'])
}
