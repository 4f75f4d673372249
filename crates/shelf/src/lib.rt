// The shelf of kept states: its names, its cells, and question 5 of it.
#![tactic(auto)]

mod cells;
mod names;
mod shelf;

pub use cells::{put_cells, put_part};
pub use names::place_of;
pub use shelf::{TALLY_CELLS, place_size, shelf_right, tally_in};
