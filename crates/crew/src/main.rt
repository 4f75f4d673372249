// Reads a list from standard input, and as arguments how many couriers there are, or within how many steps they are to end. Writes a line for
// each step of the day: its number, the letter of its wave, and the banks that it serves.
#![tactic(auto)]

mod arguments;

use crate::arguments::read_arguments;
use crew_lines::{ANSWER_BYTES, Question, put_answer};
use list_program::{LIST_BYTES, read_input};

// Tells on standard error what went wrong.
fn tell(rt: &impl Eprint, line: &str) {
    let _ = rt.eprint(line);
}

// Writes the answer to a list to standard output. Answers whether it was written.
fn print_answer(rt: &impl Print, question: Question, list: &[u8]) -> bool {
    let mut out = [0u8; ANSWER_BYTES];
    let length = put_answer(&mut out, question, list);
    rt.write_all(&out[..length]).is_ok()
}

// Reads the list and answers it.
fn run(rt: &(impl Input + Print + Eprint), question: Question) {
    let mut list = [0u8; LIST_BYTES];
    let Some(bytes) = read_input(rt, &mut list) else {
        tell(rt, "standard input cannot be read\n");
        return;
    };
    if !print_answer(rt, question, &list[..bytes]) {
        tell(rt, "standard output cannot be written\n");
    }
}

fn main(rt: HostRuntime) {
    let Some(question) = read_arguments(&rt) else {
        tell(
            &rt,
            "usage: crew Q <LIST or crew within L <LIST, Q and L numbers of at most four digits\n",
        );
        return;
    };
    run(&rt, question);
}
