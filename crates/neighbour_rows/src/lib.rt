// Rows and degrees of Neighbours when one clash is added or struck.
#![tactic(auto)]

mod clash;
mod row;

pub use clash::{Degrees, change_clash};
