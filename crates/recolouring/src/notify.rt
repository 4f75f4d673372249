// Operator NC of 000 (definition 4.9; NotifyColor in algorithm 2): notifies a bank's later neighbours that its colour changed. Their Counts learn
// it, and they are queued.
ghost use Rattle.std.specs.Prelude.{◌≡◌, ◌<◌, get_or};
ghost use Rattle.rule.specs.Graph.{Graph};
ghost use Rattle.recolouring.specs.inner.Notices.{Movable, MovesCount, Notifiable, NotifiesLater, Notice, Notifying, NotifiesNext};

use queue::{WORDS, enqueue};
use rule::{Bank, COUNT_CELLS, ROW_CELLS, Wave, earlier};

// If `notified`, moves one count of bank v from wave `old` to wave `new`. No branch: about half of the neighbours are notified.
fn move_count(counts: &mut [u16], v: Bank, old: Wave, new: Wave, notified: bool)
    requires { Movable counts.old v.0 old.0 new.0 notified }
    ensures { MovesCount counts.old counts.new v.0 old.0 new.0 notified }
{
    let one = u16::from(notified);
    let base = usize::from(v.0) * COUNT_CELLS;
    let from = base + usize::from(old.0);
    let to = base + usize::from(new.0);
    // Both are read before one is written, so that it is one law also where the two waves are the same.
    let fewer = counts[from] - one;
    let more = counts[to] + one;
    counts[from] = fewer;
    counts[to] = more;
}

// Neighbour i of b, which has this degree and rank: if it is later than b, its Counts learn that b went from `old` to `new`, and it is queued.
fn notify_one(
    neighbours: &[u16],
    degrees: &[u16],
    counts: &mut [u16],
    ranks: &[u16],
    queue: &mut [u64; WORDS],
    b: Bank,
    degree: u16,
    rank: u16,
    old: Wave,
    new: Wave,
    i: usize,
)
    requires notifying { (s : Notice)
        × Notifying s neighbours.now degrees.now ranks.now counts.old queue.old b.0 old.0 new.0 i }
    requires i_bound { i < get_or degrees.now b.0 0 }
    requires of_b { (degree ≡ get_or degrees.now b.0 0) × (rank ≡ get_or ranks.now b.0 0) }
    ensures { NotifiesNext neighbours.now degrees.now ranks.now counts.old queue.old counts.new queue.new b.0 old.0 new.0 i }
{
    let at = usize::from(b.0);
    let v = Bank(neighbours[at * ROW_CELLS + i]);
    let at_v = usize::from(v.0);
    let degree_v = degrees[at_v];
    let later = earlier(degree, rank, b, degree_v, ranks[at_v], v);
    move_count(counts, v, old, new, later);
    enqueue(queue, v, degree_v, later);
}

// If b changed, notifies its later neighbours that it went from `old` to `new`.
pub fn notify_colours(
    neighbours: &[u16],
    degrees: &[u16],
    counts: &mut [u16],
    ranks: &[u16],
    queue: &mut [u64; WORDS],
    b: Bank,
    changed: bool,
    old: Wave,
    new: Wave,
)
    requires { (G : Graph)
        × Notifiable G neighbours.now degrees.now ranks.now counts.old queue.old b.0 changed old.0 new.0 }
    ensures { NotifiesLater neighbours.now degrees.now ranks.now counts.old queue.old counts.new queue.new b.0 changed old.0 new.0 }
{
    if !changed {
        return;
    }
    let at = usize::from(b.0);
    let degree = degrees[at];
    let rank = ranks[at];
    for i in 0..usize::from(degree) {
        notify_one(
            neighbours, degrees, counts, ranks, queue, b, degree, rank, old, new, i,
        );
    }
}
