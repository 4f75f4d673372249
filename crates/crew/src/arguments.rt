// What the program is asked, from its arguments.
use crew_lines::Question;
use list_program::{arg, arg_count};
use std::rt::Env;
use text::read_number;

// Room for an argument: one that is longer is neither a number nor a word of this program.
const ARGUMENT_BYTES: usize = 8;

// Argument i as a number.
fn number_at(rt: &impl Env, i: usize) -> Option<u16> {
    let mut bytes = [0u8; ARGUMENT_BYTES];
    let length = arg(rt, i, &mut bytes);
    read_number(&bytes[..length])
}

// Whether argument i is `within`.
fn is_within(rt: &impl Env, i: usize) -> bool {
    let mut bytes = [0u8; ARGUMENT_BYTES];
    let length = arg(rt, i, &mut bytes);
    &bytes[..length] == b"within".as_slice()
}

// What the program is asked: `Q`, or `within L`.
pub fn read_arguments(rt: &impl Env) -> Option<Question> {
    match arg_count(rt) {
        2 => Some(Question::Couriers(number_at(rt, 1)?)),
        3 if is_within(rt, 1) => Some(Question::Within(number_at(rt, 2)?)),
        _ => None,
    }
}
