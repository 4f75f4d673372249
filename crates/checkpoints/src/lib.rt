// Kept states: a plan is kept on a shelf in lent memory under one of three names. `coming_back` brings it back from there.
#![tactic(auto)]

mod keeping;

pub use keeping::{check_keep, keep, open_shelf};

// What coming back leaves beside its slices: how many banks have another wave than before, and the tally.
#[derive(Clone, Copy)]
pub struct CameBack {
    pub moved: u16,
    pub tally: memory::Tally,
}
