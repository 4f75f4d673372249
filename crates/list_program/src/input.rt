// Reading standard input, or another open file.
ghost use Rattle.std.specs.Prelude.{◌≤◌, length, IfSome};

use std::io::Read;
use text::MOST_BYTES;

// One byte more than a list may have, so that question 1 sees a longer one.
pub const LIST_BYTES: usize = MOST_BYTES + 1;

// Reads an open file to its end, or as far as there is room. Answers how many bytes it read, or nothing if the system refused a read.
pub fn read_from<R: Read>(from: &mut R, list: &mut [u8]) -> Option<usize>
    ensures { IfSome result (λ n. n ≤ length list.new) }
{
    let mut at = 0;
    // By hand: a read may fill any part of the room that is left, and no bytes are the end.
    while at < list.len() {
        let count = from.read(&mut list[at..]).ok()?;
        if count == 0 {
            return Some(at);
        }
        at += count;
    }
    Some(at)
}

// Reads standard input, likewise.
pub fn read_input(rt: &impl Input, list: &mut [u8]) -> Option<usize>
    ensures { IfSome result (λ n. n ≤ length list.new) }
{
    read_from(&mut rt.reader(), list)
}
