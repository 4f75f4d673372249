// The list reader: opens a plan and makes the edits of a list's rows.
#![tactic(auto)]

mod pass;

pub use pass::read_list_core;
