// Plan memory: what its cells hold. `plan_test` has the test whether they hold a plan.
#![tactic(auto)]

mod count;
mod order;
mod put;
mod room;

pub use count::{count_earlier, wave_count};
pub use order::is_earlier;
pub use put::put_front;
pub use room::long_enough;

// The record that the caller owns and each edit brings up to date. The cap is the most waves that edits may lead to.
#[derive(Clone, Copy, PartialEq, Eq)]
pub struct Tally {
    pub banks: u16,
    pub clashes: u16,
    pub waves: u16,
    pub cap: u16,
}

// Plan memory that is lent for reading: the five slices and the tally. The neighbours have a lifetime of their own: a row that a call hands back is
// lent on when the other slices are no longer.
#[derive(Clone, Copy)]
pub struct PlanMemory<'n, 'a> {
    pub neighbours: &'n [u16],
    pub degrees: &'a [u16],
    pub waves: &'a [u16],
    pub counts: &'a [u16],
    pub ranks: &'a [u16],
    pub tally: Tally,
}
