// A test of `run`: it is given a function that holds a value of its own, which text to write. With an argument that is the poster, without one the
// sheet.
#![tactic(auto)]

use list_program::{arg_count, run};
use poster_writer::write_poster;
use sheet_writer::write_sheet;

fn main(rt: HostRuntime) {
    let poster = 1 < arg_count(&rt);
    run(&rt, |plan, out| {
        if poster {
            write_poster(plan, out)
        } else {
            write_sheet(plan, out)
        }
    });
}
