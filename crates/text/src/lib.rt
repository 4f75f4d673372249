// Text: bytes into rows, numbers read and printed, and bytes put into an output.
#![tactic(auto)]

mod number;
mod place;
mod put;

pub use number::read_number;
pub use place::find;
pub use put::{put_byte, put_number, put_text};

// The most bytes of a list, and of a journal.
pub const MOST_BYTES: usize = 60000;
