// An edit of a plan that is known to be held, under its cap: made, or made and unmade where a refusal is due after it.
#![tactic(auto)]

mod within;

pub use within::edit_within;
