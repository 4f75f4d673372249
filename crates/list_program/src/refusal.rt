// The answer to a list that was refused.
ghost use Rattle.std.specs.Prelude.{◌≤◌, length};
ghost use Rattle.text.specs.Places.{Puts};
ghost use Rattle.list_program.specs.Answers.{refusal_text};

use text::{put_byte, put_number, put_text};

// Writes `REFUSED c ROW r` to the front of out.
pub fn put_refusal(out: &mut [u8], number: u16, row: u16) -> usize
    requires { 24 ≤ length out.old }
    ensures { Puts (refusal_text number row) 0 out.old result out.new × (result ≤ length out.new) }
{
    let c = put_text(out, 0, b"REFUSED ");
    let middle = put_number(out, c, number);
    let r = put_text(out, middle, b" ROW ");
    let end = put_number(out, r, row);
    put_byte(out, end, b'\n')
}
