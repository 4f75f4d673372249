// The calls on cells that a caller lends, for the C library: those that make a plan from bytes or write bytes of it. It decides nothing itself but that a
// tally slice or a result slice that is too short gets 2 with nothing changed.
#![tactic(auto)]

mod sources;
mod texts;

pub use sources::{read_list_in, replay_in};
pub use texts::{start_journal_in, write_poster_in, write_sheet_in};
