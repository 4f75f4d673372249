// Coming back to a kept plan.
#![tactic(auto)]

mod back;

pub use back::come_back_core;
