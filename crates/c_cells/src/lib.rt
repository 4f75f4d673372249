// The tally and the results of a call as cells of lent slices, for the C library.
#![tactic(auto)]

mod cells;

pub use cells::{put_answer, put_result, put_tally, room, tally_in};
