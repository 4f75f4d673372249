// The planner: the questions that its calls ask of lent memory, what they answer, and reading a plan. `opening` opens one, `held_edits` and `entries`
// change one that is known to be held, `edit_calls` has the calls.
#![tactic(auto)]

mod checks;
mod reading;

pub use checks::{check_memory, check_plan};
pub use reading::{clashes_held, clashes_of, wave_of};

// The answer of an edit: 01's number, and how many banks moved and were taken up.
#[derive(Clone, Copy)]
pub struct Answer {
    pub number: u16,
    pub moved: u16,
    pub trail: u16,
}

// What an edit leaves beside its slices.
#[derive(Clone, Copy)]
pub struct Edited {
    pub answer: Answer,
    pub tally: memory::Tally,
}
