// What the program crew prints for a list: a line for each step of a day, or a refusal. `put_answer` writes it.
#![tactic(auto)]

mod answer;
mod line;
mod plan;

pub use answer::put_answer;
pub use plan::{Question, put_plan};

// Room for what is printed: 11 bytes of `CREW q`, 7 for each of 1,024 steps, and 5 for each of 1,024 banks.
pub const ANSWER_BYTES: usize = 12299;
