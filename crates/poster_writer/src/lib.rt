// The poster writer: the waves of a plan in pages of 50 lines for the depot gate. `write_poster` is the call.
#![tactic(auto)]

mod poster;
mod waves;

pub use poster::{LONGEST_POSTER, write_poster};
