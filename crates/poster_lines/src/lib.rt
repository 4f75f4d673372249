// The lines of the poster: the lines of one wave with its banks in columns, the line of the foot, and the filling lines.
#![tactic(auto)]

mod column;
mod lines;

pub use lines::{lines_for, put_blank_lines, put_foot_line, put_wave};
