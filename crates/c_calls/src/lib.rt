// The calls on cells that a caller lends, for the C library: those that open a plan and edit it; `c_reads` has those that read it, `c_texts` those on
// bytes, `c_shelves` those that keep it. It decides nothing itself but that a tally slice or a result slice that is too short gets 2 with nothing
// changed.
#![tactic(auto)]

mod editing;
mod plan;
mod recording;

pub use editing::{edit_in, set_cap_in};
pub use plan::open_in;
pub use recording::record_in;
