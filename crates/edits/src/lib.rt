// The accepted edit of one clash, on memory that holds a plan, where no refusal is due.
#![tactic(auto)]

mod edit;
mod recount;
mod seeds;

pub use edit::{Accepted, make_edit};
