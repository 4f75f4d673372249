// Edits without question 5 for the benchmarks, as the list reader makes one at each row. Who calls them vouches that memory holds a plan, and the queue
// none of its banks.
#![tactic(auto)]

ghost use Rattle.std.specs.Prelude.{◌≡◌, ◌≤◌, length};
ghost use Rattle.rule.specs.Graph.{Graph};
ghost use Rattle.rule.specs.declared.Kind.TheVariants.{Adding, Striking};
ghost use Rattle.memory.specs.Memory.{Ready};
ghost use Rattle.queue.specs.Queue.{Idle};
ghost use Rattle.planner.specs.inner.Held.{HoldsPlan};
ghost use Rattle.c_cells.specs.CellMemory.{tally_size, tally_in, memory_in, answered};
ghost use Rattle.c_cells.specs.Lent.{cells_given};
ghost use Rattle.bench_edit.specs.inner.HeldCall.{held_call};

use c_cells::{put_answer, tally_in};
use held_edits::edit_held;
use queue::WORDS;
use queue_places::{place_by_rank, reset};
use rule::{Bank, Kind};

// An edit of this kind. The results are the moved count and the trail count.
fn bench_edit(
    kind: Kind,
    neighbours: &mut [u16],
    degrees: &mut [u16],
    waves: &mut [u16],
    counts: &mut [u16],
    ranks: &[u16],
    trail: &mut [u16],
    moved: &mut [u16],
    queue: &mut [u64; WORDS],
    tally: &mut [u16],
    res: &mut [u16],
    a: u16,
    b: u16,
) -> u16
    requires cells { (tally_size ≤ length tally.old) × (2 ≤ length res.old) }
    requires holds_plan { HoldsPlan (memory_in (cells_given neighbours.old degrees.old waves.old counts.old ranks.now trail.old moved.old tally.old res.old)) }
    requires idle { Idle (tally_in tally.old).banks ranks.now queue.old }
    ensures edited { (G : Graph)
        → Ready G (memory_in (cells_given neighbours.old degrees.old waves.old counts.old ranks.now trail.old moved.old tally.old res.old))
        → answered result (cells_given neighbours.new degrees.new waves.new counts.new ranks.now trail.new moved.new tally.new res.new)
        ≡ held_call kind G a b (cells_given neighbours.old degrees.old waves.old counts.old ranks.now trail.old moved.old tally.old res.old) }
    ensures idle_after { Idle (tally_in tally.old).banks ranks.now queue.new }
{
    let t = tally_in(tally);
    let r = edit_held(
        kind,
        neighbours,
        degrees,
        waves,
        counts,
        ranks,
        trail,
        moved,
        queue,
        t,
        Bank(a),
        Bank(b),
    );
    put_answer(tally, res, r.tally, &[r.answer.moved, r.answer.trail]);
    r.answer.number
}

// Makes a queue ready for the edits of plans with these ranks, as a list's pass does once for all its rows. `reset` asks for a queue of its length,
// which is known of an array that was written here, and not of one that was lent.
#[unsafe(no_mangle)]
pub extern "C" fn bench_ready(ranks: &[u16], queue: &mut [u64; WORDS], banks: u16)
    requires { (banks ≤ 1024) × (banks ≤ length ranks.now) }
    ensures { Idle banks ranks.now queue.new }
{
    *queue = [0u64; WORDS];
    reset(queue);
    place_by_rank(ranks, queue, banks);
}

// Adds the clash of a and b.
#[unsafe(no_mangle)]
pub extern "C" fn bench_add(
    neighbours: &mut [u16],
    degrees: &mut [u16],
    waves: &mut [u16],
    counts: &mut [u16],
    ranks: &[u16],
    trail: &mut [u16],
    moved: &mut [u16],
    queue: &mut [u64; WORDS],
    tally: &mut [u16],
    res: &mut [u16],
    a: u16,
    b: u16,
) -> u16
    requires tally_size_in_bounds { (tally_size ≤ length tally.old) × (2 ≤ length res.old) }
    requires holds_plan { HoldsPlan (memory_in (cells_given neighbours.old degrees.old waves.old counts.old ranks.now trail.old moved.old tally.old res.old)) }
    requires idle { Idle (tally_in tally.old).banks ranks.now queue.old }
    ensures res_value { (G : Graph)
        → Ready G (memory_in (cells_given neighbours.old degrees.old waves.old counts.old ranks.now trail.old moved.old tally.old res.old))
        → answered result (cells_given neighbours.new degrees.new waves.new counts.new ranks.now trail.new moved.new tally.new res.new)
        ≡ held_call Adding G a b (cells_given neighbours.old degrees.old waves.old counts.old ranks.now trail.old moved.old tally.old res.old) }
    ensures idle_2 { Idle (tally_in tally.old).banks ranks.now queue.new }
{
    bench_edit(
        Kind::Adding,
        neighbours,
        degrees,
        waves,
        counts,
        ranks,
        trail,
        moved,
        queue,
        tally,
        res,
        a,
        b,
    )
}

// Strikes the clash of a and b.
#[unsafe(no_mangle)]
pub extern "C" fn bench_strike(
    neighbours: &mut [u16],
    degrees: &mut [u16],
    waves: &mut [u16],
    counts: &mut [u16],
    ranks: &[u16],
    trail: &mut [u16],
    moved: &mut [u16],
    queue: &mut [u64; WORDS],
    tally: &mut [u16],
    res: &mut [u16],
    a: u16,
    b: u16,
) -> u16
    requires tally_size_in_bounds { (tally_size ≤ length tally.old) × (2 ≤ length res.old) }
    requires holds_plan { HoldsPlan (memory_in (cells_given neighbours.old degrees.old waves.old counts.old ranks.now trail.old moved.old tally.old res.old)) }
    requires idle { Idle (tally_in tally.old).banks ranks.now queue.old }
    ensures res_value { (G : Graph)
        → Ready G (memory_in (cells_given neighbours.old degrees.old waves.old counts.old ranks.now trail.old moved.old tally.old res.old))
        → answered result (cells_given neighbours.new degrees.new waves.new counts.new ranks.now trail.new moved.new tally.new res.new)
        ≡ held_call Striking G a b (cells_given neighbours.old degrees.old waves.old counts.old ranks.now trail.old moved.old tally.old res.old) }
    ensures idle_2 { Idle (tally_in tally.old).banks ranks.now queue.new }
{
    bench_edit(
        Kind::Striking,
        neighbours,
        degrees,
        waves,
        counts,
        ranks,
        trail,
        moved,
        queue,
        tally,
        res,
        a,
        b,
    )
}
