// A journal's fields, read: what stands at the front, and the refusal of the first that gets a no.
#![tactic(auto)]

mod read;

pub use read::{fields_number, read_field, refusal};
