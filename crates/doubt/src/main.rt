// Reads a list from standard input, and bank numbers as arguments. Writes for each bank its wave letter as kept and as read straight off the
// rule, with the earlier neighbours that it was read from and their letters, or its refusal.
#![tactic(auto)]

mod arguments;
mod doubts;

use crate::arguments::all_numbers;
use crate::doubts::answer;
use list_program::{LIST_BYTES, read_input};

// Tells on standard error what went wrong.
fn tell(rt: &impl Eprint, line: &str) {
    let _ = rt.eprint(line);
}

fn main(rt: HostRuntime) {
    if !all_numbers(&rt) {
        tell(
            &rt,
            "usage: doubt BANK .. <LIST, each BANK a number of at most four digits\n",
        );
        return;
    }
    let mut list = [0u8; LIST_BYTES];
    let Some(bytes) = read_input(&rt, &mut list) else {
        tell(&rt, "standard input cannot be read\n");
        return;
    };
    if !answer(&rt, &list[..bytes]) {
        tell(&rt, "standard output cannot be written\n");
    }
}
