// Sheets from anybody, read: whether bytes are the text of some waves of a plan's banks, with its foot. `read_sheet` reads one.
#![tactic(auto)]

mod line;
mod number;
mod sheet;

pub use line::UNNAMED;
pub use number::text_at;
pub use sheet::read_sheet;
