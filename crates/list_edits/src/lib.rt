// The edits of a list's rows, in memory that holds a plan.
#![tactic(auto)]

mod change;
mod rows;

pub use rows::read_edits;
