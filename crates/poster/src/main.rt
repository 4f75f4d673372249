// Reads a list from standard input, and writes its poster or its refusal to standard output.
#![tactic(auto)]

use list_program::{Poster, run_text};

fn main(rt: HostRuntime) {
    run_text::<Poster>(&rt);
}
