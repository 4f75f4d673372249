// The program's arguments. Argument 0 is its name.
ghost use Rattle.std.specs.Prelude.{◌≤◌, length};

use std::env::FillError;
use std::rt::Env;

// Whether there is an argument i.
fn has_arg(rt: &impl Env, i: usize) -> bool {
    let mut bytes = [0u8; 1];
    match rt.arg(i, &mut bytes) {
        Err(FillError::NotPresent) => false,
        _ => true,
    }
}

// How many arguments there are.
pub fn arg_count(rt: &impl Env) -> usize {
    for i in 0..usize::MAX {
        if !has_arg(rt, i) {
            return i;
        }
    }
    usize::MAX
}

// Puts argument i at the start of buf and answers its length, or 0 where there is none or it is longer than buf.
pub fn arg(rt: &impl Env, i: usize, buf: &mut [u8]) -> usize
    ensures { result ≤ length buf.new }
{
    match rt.arg(i, buf) {
        Ok(length) => length,
        Err(_) => 0,
    }
}
