// The rows of a list: what each of them says.
#![tactic(auto)]

mod row;

pub use row::{Change, Row, is_v2, read_row_in};
