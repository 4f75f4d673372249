// Question 5: the test whether lent memory holds a plan.
#![tactic(auto)]

mod test;
mod walk;

pub use test::holds_plan;
