// Opening a wave plan in lent memory.
#![tactic(auto)]

mod opening;

pub use opening::{open_all, open_core};
