// The edit of one clash where memory is known to hold a plan.
#![tactic(auto)]

mod editing;

pub use editing::{edit_alone, edit_held, edit_number, refuse};
