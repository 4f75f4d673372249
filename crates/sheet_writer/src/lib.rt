// The sheet writer: the waves of a plan as text. `write_sheet` is the call.
#![tactic(auto)]

mod lines;
mod sheet;

pub use sheet::{LONGEST_SHEET, write_sheet};
