// What the program agree prints of a sheet: whether it is accepted and the planner's own, or what is wrong with it. `put_verdict` writes it.
#![tactic(auto)]

mod line;
mod verdict;

pub use line::VERDICT_BYTES;
pub use verdict::put_verdict;
