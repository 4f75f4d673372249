// The bank numbers among the program's arguments.
use list_program::{arg, arg_count};
use std::rt::Env;
use text::read_number;

// Room for an argument: one that is longer is no number.
const ARGUMENT_BYTES: usize = 8;

// Argument i as a number.
pub fn number_at(rt: &impl Env, i: usize) -> Option<u16> {
    let mut bytes = [0u8; ARGUMENT_BYTES];
    let length = arg(rt, i, &mut bytes);
    read_number(&bytes[..length])
}

// Whether there is an argument, and each is a number.
pub fn all_numbers(rt: &impl Env) -> bool {
    let count = arg_count(rt);
    1 < count && (1..count).all(|i| number_at(rt, i).is_some())
}
