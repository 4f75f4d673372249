// The seeds of an edit (000, lemmas 4.2 and 4.3): its two banks, and each neighbour whose order towards one of them turned over. Their earlier
// neighbours may differ, so Counts of each are counted anew.
ghost use Rattle.memory.specs.Plan.{slices_of};
ghost use Rattle.std.specs.Prelude.{List, ℕ, ◌+◌, ◌<◌, get_or};
ghost use Rattle.rule.specs.Graph.{Graph};
ghost use Rattle.edits.specs.inner.Recount.{Recounting, SeedQueued};
ghost use Rattle.edits.specs.inner.Seeds.{Search, Turning, Seedable, Seeded};
ghost use Rattle.edits.specs.inner.Change.{Origin, edit_at};

use crate::recount::recount_one;
use memory::is_earlier;
use neighbour_rows::Degrees;
use queue::{WORDS, enqueue};
use rule::{Bank, ROW_CELLS, earlier};

// Counts anew for v, and queues it.
fn queue_seed(
    neighbours: &[u16],
    degrees: &[u16],
    waves: &[u16],
    counts: &mut [u16],
    ranks: &[u16],
    queue: &mut [u64; WORDS],
    banks: u16,
    v: Bank,
)
    requires recounting { (G : Graph) × (was : List ℕ)
        × Recounting G (slices_of neighbours.now degrees.now waves.now counts.old ranks.now) was queue.old banks }
    requires bank { v.0 < banks }
    ensures { (G : Graph) → (was : List ℕ)
        → Recounting G (slices_of neighbours.now degrees.now waves.now counts.old ranks.now) was queue.old banks
        → SeedQueued G (slices_of neighbours.now degrees.now waves.now counts.new ranks.now) was queue.old queue.new banks v.0 }
{
    recount_one(neighbours, degrees, waves, counts, ranks, banks, v);
    enqueue(queue, v, degrees[usize::from(v.0)], true);
}

// If the order of b and its neighbour i turned over, where b had the degree `old`: the neighbour is a seed.
fn queue_turned_one(
    neighbours: &[u16],
    degrees: &[u16],
    waves: &[u16],
    counts: &mut [u16],
    ranks: &[u16],
    queue: &mut [u64; WORDS],
    banks: u16,
    b: Bank,
    old: u16,
    i: usize,
)
    requires turning { (s : Search) × Turning s (slices_of neighbours.now degrees.now waves.now counts.old ranks.now) queue.old banks b.0 old i }
    requires in_row { i < get_or degrees.now b.0 0 }
    ensures { (s : Search)
        → Turning s (slices_of neighbours.now degrees.now waves.now counts.old ranks.now) queue.old banks b.0 old i
        → Turning s (slices_of neighbours.now degrees.now waves.now counts.new ranks.now) queue.new banks b.0 old (i + 1) }
{
    let at = usize::from(b.0);
    let v = Bank(neighbours[at * ROW_CELLS + i]);
    let at_v = usize::from(v.0);
    let was = earlier(degrees[at_v], ranks[at_v], v, old, ranks[at], b);
    let is = is_earlier(degrees, ranks, v, b);
    if was == is {
        return;
    }
    queue_seed(neighbours, degrees, waves, counts, ranks, queue, banks, v);
}

// The same for every neighbour of b.
fn queue_turned(
    neighbours: &[u16],
    degrees: &[u16],
    waves: &[u16],
    counts: &mut [u16],
    ranks: &[u16],
    queue: &mut [u64; WORDS],
    banks: u16,
    b: Bank,
    old: u16,
)
    requires { (s : Search) × Turning s (slices_of neighbours.now degrees.now waves.now counts.old ranks.now) queue.old banks b.0 old 0 }
    ensures { (s : Search)
        → Turning s (slices_of neighbours.now degrees.now waves.now counts.old ranks.now) queue.old banks b.0 old 0
        → Turning s (slices_of neighbours.now degrees.now waves.now counts.new ranks.now) queue.new banks b.0 old
        (get_or degrees.now b.0 0) }
{
    let degree = usize::from(degrees[usize::from(b.0)]);
    // By index: the state of the search counts the cells of the row that are looked at.
    for i in 0..degree {
        queue_turned_one(
            neighbours, degrees, waves, counts, ranks, queue, banks, b, old, i,
        );
    }
}

// Queues the seeds of the edit of a and b, which had the degrees `before`, and counts anew for each.
pub fn queue_seeds(
    neighbours: &[u16],
    degrees: &[u16],
    waves: &[u16],
    counts: &mut [u16],
    ranks: &[u16],
    queue: &mut [u64; WORDS],
    banks: u16,
    a: Bank,
    b: Bank,
    before: Degrees,
)
    requires { (o : Origin)
        × Seedable (edit_at o a.0 b.0) (slices_of neighbours.now degrees.now waves.now counts.old ranks.now) queue.old banks before }
    ensures { (o : Origin)
        → Seedable (edit_at o a.0 b.0) (slices_of neighbours.now degrees.now waves.now counts.old ranks.now) queue.old banks before
        → Seeded (edit_at o a.0 b.0) (slices_of neighbours.now degrees.now waves.now counts.new ranks.now) counts.old queue.new banks }
{
    let old_a = before.a;
    let old_b = before.b;
    queue_seed(neighbours, degrees, waves, counts, ranks, queue, banks, a);
    queue_seed(neighbours, degrees, waves, counts, ranks, queue, banks, b);
    queue_turned(
        neighbours, degrees, waves, counts, ranks, queue, banks, a, old_a,
    );
    queue_turned(
        neighbours, degrees, waves, counts, ranks, queue, banks, b, old_b,
    );
}
