// What the program doubt prints for a bank: its line, or its refusal. `put_line` writes it.
#![tactic(auto)]

mod line;

pub use line::{LINE_BYTES, put_line};
