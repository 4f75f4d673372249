// Pieces of a line: a number after a text, and the answer to a call that was refused. Each function writes at `at` and answers the place after
// what it wrote.
ghost use Rattle.std.specs.Prelude.{◌+◌, ◌≤◌, length};
ghost use Rattle.text.specs.Places.{Puts};
ghost use Rattle.list_program.specs.Answers.{named, refused_text};

use text::{put_byte, put_number, put_text};

// A text and a number.
pub fn put_named(out: &mut [u8], at: usize, text: &[u8], x: u16) -> usize
    requires { at + (length text.now + 5) ≤ length out.old }
    ensures { Puts (named text.now x) at out.old result out.new }
{
    let next = put_text(out, at, text);
    put_number(out, next, x)
}

// A word and a number, and the refusal of the call that they stand for.
pub fn put_refused(out: &mut [u8], at: usize, word: &[u8], x: u16, number: u16) -> usize
    requires { at + (length word.now + 20) ≤ length out.old }
    ensures { Puts (refused_text word.now x number) at out.old result out.new × (result ≤ length out.new) }
{
    let first = put_named(out, at, word, x);
    let second = put_named(out, first, b" REFUSED ", number);
    put_byte(out, second, b'\n')
}
