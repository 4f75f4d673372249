// Reads a list from standard input, and writes its sheet or its refusal to standard output.
#![tactic(auto)]

use list_program::{Sheet, run_text};

fn main(rt: HostRuntime) {
    run_text::<Sheet>(&rt);
}
