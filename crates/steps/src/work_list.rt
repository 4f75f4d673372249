// All banks that wait, taken up.
ghost use Rattle.memory.specs.Lent.{given};
ghost use Rattle.queue.specs.Queue.{Idle};
ghost use Rattle.steps.specs.inner.Work.{Edit, new, begun, Working, Settled};

use crate::can_step::{Progress, can_step};
use queue::{WORDS, is_empty};
use recolouring::Highest;

// Takes up the queue's banks, the earliest first, until none waits. Before that `most` waves are in use.
pub fn settle(
    neighbours: &[u16],
    degrees: &[u16],
    waves: &mut [u16],
    counts: &mut [u16],
    ranks: &[u16],
    trail: &mut [u16],
    moved: &mut [u16],
    queue: &mut [u64; WORDS],
    most: u16,
) -> Progress
    requires { (e : Edit)
        × Working e (given neighbours.now degrees.now waves.old counts.old ranks.now trail.old moved.old e.was.tally) queue.old (begun most) }
    ensures { (e : Edit)
        → Working e (given neighbours.now degrees.now waves.old counts.old ranks.now trail.old moved.old e.was.tally) queue.old (begun most)
        → Settled e (given neighbours.now degrees.now waves.new counts.new ranks.now trail.new moved.new e.was.tally) result
        × Idle (new e).banks ranks.now queue.new }
{
    let mut p = Progress {
        taken: 0,
        moved: 0,
        top: Highest { most, left: false },
    };
    // By hand: a bank that is taken up may queue others.
    while !is_empty(queue) {
        p = can_step(
            neighbours, degrees, waves, counts, ranks, trail, moved, queue, p,
        );
    }
    p
}
