// Takes two files, a list and a sheet. Writes whether the sheet is one of the list's plan that keeps clashing banks apart, in no more waves than the
// planner's, and whether it is the planner's own; or what is wrong with it; or the list's refusal.
#![tactic(auto)]

mod answer;
mod files;

use crate::answer::answer;
use crate::files::read_file;
use list_program::{LIST_BYTES, arg_count};
use sheet_writer::LONGEST_SHEET;
use std::rt::{Env, Files};

// One byte more than a sheet can have, so that a longer file shows.
const SHEET_BYTES: usize = LONGEST_SHEET + 1;

// Tells on standard error what went wrong.
fn tell(rt: &impl Eprint, line: &str) {
    let _ = rt.eprint(line);
}

// Answers the list and the file of the sheet.
fn agree(rt: &(impl Env + Files + Print + Eprint), list: &[u8]) {
    let mut sheet = [0u8; SHEET_BYTES];
    let Some(length) = read_file(rt, 2, &mut sheet) else {
        tell(rt, "SHEET cannot be read\n");
        return;
    };
    if !answer(rt, list, &sheet[..length]) {
        tell(rt, "standard output cannot be written\n");
    }
}

fn main(rt: HostRuntime) {
    if arg_count(&rt) != 3 {
        tell(&rt, "usage: agree LIST SHEET\n");
        return;
    }
    let mut list = [0u8; LIST_BYTES];
    let Some(length) = read_file(&rt, 1, &mut list) else {
        tell(&rt, "LIST cannot be read\n");
        return;
    };
    agree(&rt, &list[..length]);
}
