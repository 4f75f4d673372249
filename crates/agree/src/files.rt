// The files that the arguments name.
ghost use Rattle.std.specs.Prelude.{◌≤◌, length, IfSome};

use list_program::{arg, read_from};
use std::fs::File;
use std::rt::{Env, Files};
use std::str;

// Room for a file's name: one that is longer names no file.
const NAME_BYTES: usize = 4096;

// Reads the file of this name, to its end or as far as there is room. Answers how many bytes it read, or nothing if it cannot be read.
fn read_named<R: Files>(rt: &R, name: &[u8], bytes: &mut [u8]) -> Option<usize>
    ensures { IfSome result (λ n. n ≤ length bytes.new) }
{
    let path = str::from_utf8(name).ok()?;
    let mut file = File::open(rt, path).ok()?;
    read_from(&mut file, bytes)
}

// Reads the file that argument i names, to its end or as far as there is room. Answers how many bytes it read, or nothing if it cannot be read.
pub fn read_file<R: Env + Files>(rt: &R, i: usize, bytes: &mut [u8]) -> Option<usize>
    ensures { IfSome result (λ n. n ≤ length bytes.new) }
{
    let mut name = [0u8; NAME_BYTES];
    let length = arg(rt, i, &mut name);
    read_named(rt, &name[..length], bytes)
}
