// The rule order of two banks, by the cells of their degrees and ranks.
ghost use Rattle.std.specs.Prelude.{◌≡◌, ◌<◌, length};
ghost use Rattle.memory.specs.inner.Counts.{by_cells};

use rule::{Bank, earlier};

// Whether bank p is earlier than bank q.
pub fn is_earlier(degrees: &[u16], ranks: &[u16], p: Bank, q: Bank) -> bool
    requires have_degrees { (p.0 < length degrees.now) × (q.0 < length degrees.now) }
    requires have_ranks { (p.0 < length ranks.now) × (q.0 < length ranks.now) }
    ensures { result ≡ by_cells degrees.now ranks.now p.0 q.0 }
{
    let at_p = p.0 as usize;
    let at_q = q.0 as usize;
    earlier(degrees[at_p], ranks[at_p], p, degrees[at_q], ranks[at_q], q)
}
