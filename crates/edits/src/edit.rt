// The edit, on memory that holds a plan, where no refusal is due.
ghost use Rattle.std.specs.Prelude.{◌≡◌, ℕ, ◌<◌, ◌≤◌, length, get_or};
ghost use Rattle.rule.specs.Graph.{Graph};
ghost use Rattle.memory.specs.Lent.{given};
ghost use Rattle.memory.specs.inner.Counts.{most_of};
ghost use Rattle.queue.specs.Queue.{Idle};
ghost use Rattle.recolouring.specs.inner.Tops.{Top};
ghost use Rattle.edits.specs.Edits.{Editable, Result};
ghost use Rattle.edits.specs.inner.Change.{Origin, edit_at, RowsChanged, NumberFits, number_after};

use crate::seeds::queue_seeds;
use memory::{Tally, wave_count};
use neighbour_rows::{Degrees, change_clash};
use queue::WORDS;
use recolouring::Highest;
use rule::{Bank, Kind};
use steps::settle;

// What an accepted edit answers: how many banks moved, how many were taken up, and the tally after it.
#[derive(Clone, Copy)]
pub struct Accepted {
    pub moved: u16,
    pub trail: u16,
    pub tally: Tally,
}

// The number of waves after all steps. The waves are counted only if a bank left the highest and none came there since.
fn waves_after(waves: &[u16], banks: u16, top: Highest) -> u16
    requires long { banks ≤ length waves.now }
    requires small { (x : ℕ) → x < banks → get_or waves.now x 0 < 24 }
    requires top { Top banks waves.now top }
    ensures { result ≡ most_of waves.now banks }
{
    if top.left {
        wave_count(waves, banks)
    } else {
        top.most
    }
}

// Brings waves and Counts up to date, once rows and degrees are, and writes the trail and the moved list. The tally has the new number of clashes;
// a and b had the degrees `old`.
fn propagate(
    neighbours: &[u16],
    degrees: &[u16],
    waves: &mut [u16],
    counts: &mut [u16],
    ranks: &[u16],
    trail: &mut [u16],
    moved: &mut [u16],
    queue: &mut [u64; WORDS],
    tally: Tally,
    a: Bank,
    b: Bank,
    old: Degrees,
) -> Accepted
    requires rows_changed { (o : Origin)
        × RowsChanged (edit_at o a.0 b.0) (given neighbours.now degrees.now waves.old counts.old ranks.now trail.old moved.old o.memory.tally) old tally }
    requires idle { Idle tally.banks ranks.now queue.old }
    ensures made { (o : Origin)
        → RowsChanged (edit_at o a.0 b.0) (given neighbours.now degrees.now waves.old counts.old ranks.now trail.old moved.old o.memory.tally) old tally
        → Result o.kind o.graph a.0 b.0 o.memory (given neighbours.now degrees.now waves.new counts.new ranks.now trail.new moved.new result.tally) result }
    ensures idle { Idle tally.banks ranks.now queue.new }
{
    let banks = tally.banks;
    queue_seeds(
        neighbours, degrees, waves, counts, ranks, queue, banks, a, b, old,
    );
    let done = settle(
        neighbours,
        degrees,
        waves,
        counts,
        ranks,
        trail,
        moved,
        queue,
        tally.waves,
    );
    let most = waves_after(waves, banks, done.top);
    Accepted {
        moved: done.moved as u16,
        trail: done.taken as u16,
        tally: Tally {
            waves: most,
            ..tally
        },
    }
}

// The number of clashes after an edit, of that before it.
fn count_after(kind: Kind, clashes: u16) -> u16
    requires { NumberFits kind clashes }
    ensures { result ≡ number_after kind clashes }
{
    match kind {
        Kind::Adding => clashes + 1,
        Kind::Striking => clashes - 1,
    }
}

// Adds or strikes the clash of a and b. The queue is lent, so that it is made ready once for many edits.
pub fn make_edit(
    kind: Kind,
    neighbours: &mut [u16],
    degrees: &mut [u16],
    waves: &mut [u16],
    counts: &mut [u16],
    ranks: &[u16],
    trail: &mut [u16],
    moved: &mut [u16],
    queue: &mut [u64; WORDS],
    tally: Tally,
    a: Bank,
    b: Bank,
) -> Accepted
    requires editable { (G : Graph) × Editable kind G (given neighbours.old degrees.old waves.old counts.old ranks.now trail.old moved.old tally) a.0 b.0 }
    requires idle { Idle tally.banks ranks.now queue.old }
    ensures fact { (G : Graph)
        → Editable kind G (given neighbours.old degrees.old waves.old counts.old ranks.now trail.old moved.old tally) a.0 b.0
        → Result kind G a.0 b.0 (given neighbours.old degrees.old waves.old counts.old ranks.now trail.old moved.old tally)
        (given neighbours.new degrees.new waves.new counts.new ranks.now trail.new moved.new result.tally) result }
    ensures idle_2 { Idle tally.banks ranks.now queue.new }
{
    let clashes = count_after(kind, tally.clashes);
    let old = change_clash(kind, neighbours, degrees, a, b);
    let start = Tally { clashes, ..tally };
    propagate(
        neighbours, degrees, waves, counts, ranks, trail, moved, queue, start, a, b, old,
    )
}
