// The entries of a list or a journal where memory is known to hold a plan: edits of one clash, and ranks before them.
#![tactic(auto)]

mod entering;

pub use entering::{begun_by, enter_held};
