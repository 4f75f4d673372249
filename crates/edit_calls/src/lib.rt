// An edit of one clash, and setting the cap, with the tally by value: the cores of the calls add, strike and set_cap of `lent_calls`.
#![tactic(auto)]

mod capping;
mod editing;

pub use capping::set_cap_core;
pub use editing::edit_core;
