// The bytes of a journal: what they mean, its fields written, and the questions about its length and its first field.
#![tactic(auto)]

mod field;
mod space;

pub use field::{
    ADD_TAG, FIRST_BYTES, Fault, HEAD_BYTES, NUMBERED_BYTES, RANK_TAG, STRIKE_TAG, entry_bytes,
    is_numbered, number_at, put_entry, put_first, value_bytes,
};
pub use space::{head_number, space_number};
