// The calls that change a tally, as a caller makes them: the tally is a `&mut Tally`, and left as the call leaves it.
#![tactic(auto)]

mod editing;
mod passes;
mod plan;
mod recording;
mod returning;

pub use editing::{add, set_cap, strike};
pub use passes::{read_list, replay};
pub use plan::open;
pub use recording::{add_recorded, strike_recorded};
pub use returning::come_back;
