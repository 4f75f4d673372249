// Edits that are made and recorded in the journal of their plan.
#![tactic(auto)]

mod record;

pub use record::record_core;
