// The replay of a journal.
#![tactic(auto)]

mod rerun;

pub use rerun::{Replayed, ReplayedPlan, replay_core};
