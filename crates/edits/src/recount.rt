// Counts of the seeds. No other bank has other earlier neighbours than before the edit.
ghost use Rattle.std.specs.Prelude.{◌+◌, ◌*◌, ◌≤◌, length};
ghost use Rattle.memory.specs.inner.Counts.{Countable};
ghost use Rattle.edits.specs.inner.Recount.{Recounts};

use memory::count_earlier;
use rule::{Bank, COUNT_CELLS};

// Counts anew for bank b.
pub fn recount_one(
    neighbours: &[u16],
    degrees: &[u16],
    waves: &[u16],
    counts: &mut [u16],
    ranks: &[u16],
    banks: u16,
    b: Bank,
)
    requires countable { Countable neighbours.now degrees.now ranks.now waves.now banks b.0 }
    requires b_in_bounds { b.0 * 24 + 24 ≤ length counts.old }
    ensures { Recounts neighbours.now degrees.now waves.now counts.old ranks.now counts.new b.0 }
{
    let start = usize::from(b.0) * COUNT_CELLS;
    let end = start + COUNT_CELLS;
    count_earlier(
        neighbours,
        degrees,
        ranks,
        waves,
        &mut counts[start..end],
        banks,
        b,
    );
}
