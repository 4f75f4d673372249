// One bank taken up: a CAN step of 000 (definition 4.10; lines 16 to 18 of algorithm 2), which performs CC, AC and NC in that order.
ghost use Rattle.std.specs.Prelude.{cond, ◌≡◌, ◌+◌, ◌<◌, length, set};
ghost use Rattle.memory.specs.Lent.{given};
ghost use Rattle.steps.specs.inner.Work.{Edit, Steppable, Stepped};

use queue::{WORDS, dequeue};
use recolouring::{Highest, assign_colour, collect_colours, highest_after, notify_colours};
use rule::{Bank, Wave};

// How far an edit is: how many banks are taken up, how many of them changed their wave, and the highest wave in use.
#[derive(Clone, Copy)]
pub struct Progress {
    pub taken: usize,
    pub moved: usize,
    pub top: Highest,
}

// Puts b at the end of the moved list if it changed. Answers the list's length.
fn list_moved(moved: &mut [u16], count: usize, b: Bank, changed: bool) -> usize
    requires { count < length moved.old }
    ensures moved_after { moved.new ≡ cond changed (set moved.old count b.0) moved.old }
    ensures value { result ≡ cond changed (count + 1) count }
{
    if changed {
        moved[count] = b.0;
        count + 1
    } else {
        count
    }
}

// Takes up the earliest bank of the queue: puts it at the trail's end, collects, assigns, puts it at the end of moved if its wave changed, notifies, and
// keeps the highest wave up.
pub fn can_step(
    neighbours: &[u16],
    degrees: &[u16],
    waves: &mut [u16],
    counts: &mut [u16],
    ranks: &[u16],
    trail: &mut [u16],
    moved: &mut [u16],
    queue: &mut [u64; WORDS],
    p: Progress,
) -> Progress
    requires { (e : Edit) × Steppable e (given neighbours.now degrees.now waves.old counts.old ranks.now trail.old moved.old e.was.tally) queue.old p }
    ensures { (e : Edit)
        → Steppable e (given neighbours.now degrees.now waves.old counts.old ranks.now trail.old moved.old e.was.tally) queue.old p
        → Stepped e (given neighbours.now degrees.now waves.old counts.old ranks.now trail.old moved.old e.was.tally)
        (given neighbours.now degrees.now waves.new counts.new ranks.now trail.new moved.new e.was.tally) queue.old queue.new p result }
{
    let Progress {
        taken,
        moved: changes,
        top,
    } = p;
    let next = taken + 1;
    let b = dequeue(ranks, queue);
    let at = usize::from(b.0);
    trail[taken] = b.0;
    let old = Wave(waves[at]);
    let colours = collect_colours(counts, b);
    let changed = assign_colour(waves, b, colours);
    let new = Wave(waves[at]);
    let moves = list_moved(moved, changes, b, changed);
    notify_colours(
        neighbours, degrees, counts, ranks, queue, b, changed, old, new,
    );
    let top = highest_after(top, old, new);
    Progress {
        taken: next,
        moved: moves,
        top,
    }
}
