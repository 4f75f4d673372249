// Banks taken up, one after the other, until none waits: the CAN steps of 000.
#![tactic(auto)]

mod can_step;
mod work_list;

pub use can_step::Progress;
pub use work_list::settle;
