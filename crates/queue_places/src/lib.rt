// The places of a queue's banks: a queue made ready, with places that are the banks' numbers, and places made to go by rank.
#![tactic(auto)]

mod places;

pub use places::{place_by_rank, reset};
