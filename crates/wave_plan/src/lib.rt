// The C library: the names and parameters of each call, as `include/wave_plan.h` declares them. What a call does is in the crates c_.., but for
// opening a shelf, which has neither tally nor results: in `checkpoints`.
#![tactic(auto)]

mod crew;
mod editing;
mod plan;
mod recording;
mod sheets;
mod shelves;
mod sources;
mod texts;

pub use crew::{wave_plan_crew_steps, wave_plan_least_crew};
pub use editing::{wave_plan_add, wave_plan_set_cap, wave_plan_strike};
pub use plan::{
    wave_plan_clashes_of, wave_plan_open, wave_plan_wave_bound, wave_plan_wave_by_rule,
    wave_plan_wave_of,
};
pub use recording::{wave_plan_add_recorded, wave_plan_strike_recorded};
pub use sheets::wave_plan_check_sheet;
pub use shelves::{wave_plan_come_back, wave_plan_keep, wave_plan_open_shelf};
pub use sources::{wave_plan_read_list, wave_plan_replay};
pub use texts::{wave_plan_start_journal, wave_plan_write_poster, wave_plan_write_sheet};
