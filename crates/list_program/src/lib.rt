// The programs that answer a list: reading it from standard input, a text of its plan or the line of its refusal, and printing that.
#![tactic(auto)]

mod answer;
mod arguments;
mod input;
mod named;
mod printing;
mod refusal;
mod texts;

pub use arguments::{arg, arg_count};
pub use input::{LIST_BYTES, read_from, read_input};
pub use named::{put_named, put_refused};
pub use printing::run;
pub use refusal::put_refusal;
pub use texts::{PlanText, Poster, Sheet, run_text};
