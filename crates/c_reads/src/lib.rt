// The calls on cells that a caller lends, for the C library: those that read a plan and change none of its cells. It decides nothing itself but that
// a tally slice or a result slice that is too short gets 2 with nothing changed.
#![tactic(auto)]

mod crew;
mod reading;
mod sheets;

pub use crew::{crew_steps_in, least_crew_in};
pub use reading::{clashes_of_in, wave_bound_in, wave_by_rule_in, wave_of_in};
pub use sheets::check_sheet_in;
