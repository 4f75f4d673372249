// The priority queue of an edit: a bit for each degree and place, so that the degrees stand in the rule order and no bank stands there twice. A
// summary has a bit for each word, so that the first word that is not 0 is found in a few steps. The places of the banks go by rank, or are their
// numbers, and then ranks decide among the banks of a degree; `queue_places` makes them.
#![tactic(auto)]

mod queue;
mod ties;
mod words;

pub use queue::{dequeue, enqueue, is_empty};
pub use words::{BIT_WORDS, BY_RANK, PLACED, PLACES, WORDS};
