// The edit of one row, or its rank.
ghost use Rattle.std.specs.Prelude.{false, ◌≡◌};
ghost use Rattle.memory.specs.Lent.{given};
ghost use Rattle.queue.specs.Queue.{Idle, Unranked};
ghost use Rattle.planner.specs.inner.Held.{HoldsPlan};
ghost use Rattle.list_pass.specs.inner.Steps.{change_begun, Asks, Applies, StrikesAll};

use entries::enter_held;
use held_edits::{edit_held, refuse};
use list_rows::Change;
use memory::{PlanMemory, Tally};
use planner::{Answer, Edited, clashes_held};
use queue::WORDS;
use rule::{Bank, Kind, Refusal};

// Makes the edit of one row or sets its rank. The answer is that of its last edit.
pub fn apply(
    neighbours: &mut [u16],
    degrees: &mut [u16],
    waves: &mut [u16],
    counts: &mut [u16],
    ranks: &mut [u16],
    trail: &mut [u16],
    moved: &mut [u16],
    queue: &mut [u64; WORDS],
    tally: Tally,
    begun: bool,
    change: Change,
) -> Edited
    requires asks { Asks begun change (given neighbours.old degrees.old waves.old counts.old ranks.old trail.old moved.old tally) }
    requires idle { Idle tally.banks ranks.old queue.old }
    requires unranked { begun ≡ false → Unranked queue.old }
    ensures applies { Applies change begun
        (given neighbours.old degrees.old waves.old counts.old ranks.old trail.old moved.old tally) result
        (given neighbours.new degrees.new waves.new counts.new ranks.new trail.new moved.new result.tally) }
    ensures idle_after { Idle tally.banks ranks.new queue.new }
    ensures unranked_after { change_begun change begun ≡ false → Unranked queue.new }
{
    match change {
        Change::One(entry) => enter_held(
            neighbours, degrees, waves, counts, ranks, trail, moved, queue, tally, begun, entry,
        ),
        Change::StrikeAll(b) => strike_all(
            neighbours, degrees, waves, counts, ranks, trail, moved, queue, tally, b,
        ),
    }
}

// Strikes all clashes of b, the lowest neighbour first. The answer is that of the last strike.
fn strike_all(
    neighbours: &mut [u16],
    degrees: &mut [u16],
    waves: &mut [u16],
    counts: &mut [u16],
    ranks: &[u16],
    trail: &mut [u16],
    moved: &mut [u16],
    queue: &mut [u64; WORDS],
    tally: Tally,
    b: Bank,
) -> Edited
    requires holds_plan { HoldsPlan (given neighbours.old degrees.old waves.old counts.old ranks.now trail.old moved.old tally) }
    requires idle { Idle tally.banks ranks.now queue.old }
    ensures strikes_all { StrikesAll b
        (given neighbours.old degrees.old waves.old counts.old ranks.now trail.old moved.old tally) result
        (given neighbours.new degrees.new waves.new counts.new ranks.now trail.new moved.new result.tally) }
    ensures idle_after { Idle tally.banks ranks.now queue.new }
{
    if tally.banks <= b.0 {
        return refuse(Refusal::FarBank, tally);
    }
    let plan = PlanMemory {
        neighbours,
        degrees,
        waves,
        counts,
        ranks,
        tally,
    };
    let row = clashes_held(plan, b);
    let left = row.len();
    let mut last = Edited {
        answer: Answer {
            number: 0,
            moved: 0,
            trail: 0,
        },
        tally,
    };
    // Over a count: each strike changes the row, so that the next one is read anew.
    for _ in 0..left {
        let held = last.tally;
        let plan = PlanMemory {
            neighbours,
            degrees,
            waves,
            counts,
            ranks,
            tally: held,
        };
        let row = clashes_held(plan, b);
        let lowest = Bank(row[0]);
        last = edit_held(
            Kind::Striking,
            neighbours,
            degrees,
            waves,
            counts,
            ranks,
            trail,
            moved,
            queue,
            held,
            b,
            lowest,
        );
    }
    last
}
