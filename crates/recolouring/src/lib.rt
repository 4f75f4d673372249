// One bank treated by the operators of 000: its colours collected, its wave assigned, its later neighbours notified; and the highest wave kept up.
#![tactic(auto)]

mod assign;
mod collect;
mod highest;
mod notify;

pub use assign::assign_colour;
pub use collect::collect_colours;
pub use highest::{Highest, highest_after};
pub use notify::notify_colours;
