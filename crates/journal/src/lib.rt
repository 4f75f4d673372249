// The journal of a plan, and starting it. `recorded_edits` makes edits and records them in it.
#![tactic(auto)]

mod start;

pub use start::start_journal;

// The answer of an edit that is recorded: that of the edit, and the journal's new length, at most 60,000.
#[derive(Clone, Copy)]
pub struct Recorded {
    pub number: u16,
    pub moved: u16,
    pub trail: u16,
    pub length: u16,
}

// What a recorded edit leaves beside its slices.
#[derive(Clone, Copy)]
pub struct RecordedEdit {
    pub answer: Recorded,
    pub tally: memory::Tally,
}
