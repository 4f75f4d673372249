// The calls on cells that a caller lends, for the C library: those that keep a plan on a shelf and come back to it. It decides nothing itself but that a
// tally slice or a result slice that is too short gets 2 with nothing changed.
#![tactic(auto)]

ghost use Rattle.memory.specs.Plan.{slices_of};
ghost use Rattle.std.specs.Prelude.{◌≡◌};
ghost use Rattle.checkpoints.specs.Calls.{shelf_result};
ghost use Rattle.c_shelves.specs.Shelves.{keep_call, back_answered, come_back_call};

use c_cells::{put_answer, room, tally_in};
use checkpoints::keep;
use coming_back::come_back_core;
use memory::{PlanMemory, put_front};

const BACK_RESULTS: usize = 1;

// Keeps the plan under a name.
pub fn keep_in(
    neighbours: &[u16],
    degrees: &[u16],
    waves: &[u16],
    counts: &[u16],
    ranks: &[u16],
    tally: &[u16],
    shelf: &mut [u16],
    name: &[u8],
) -> u16
    ensures { shelf_result result shelf.new
        ≡ keep_call name.now (slices_of neighbours.now degrees.now waves.now counts.now ranks.now) tally.now shelf.old }
{
    let short = room(tally.len(), 0, 0);
    if short != 0 {
        return short;
    }
    let plan = PlanMemory {
        neighbours,
        degrees,
        waves,
        counts,
        ranks,
        tally: tally_in(tally),
    };
    match keep(plan, shelf, name) {
        Ok(()) => 0,
        Err(refusal) => u16::from(refusal),
    }
}

// Comes back to the plan kept under a name. The result is the moved count.
pub fn come_back_in(
    neighbours: &mut [u16],
    degrees: &mut [u16],
    waves: &mut [u16],
    counts: &mut [u16],
    ranks: &mut [u16],
    moved: &mut [u16],
    tally: &mut [u16],
    shelf: &[u16],
    name: &[u8],
    res: &mut [u16],
) -> u16
    ensures { back_answered result (slices_of neighbours.new degrees.new waves.new counts.new ranks.new) moved.new tally.new res.new
        ≡ come_back_call name.now (slices_of neighbours.old degrees.old waves.old counts.old ranks.old) moved.old tally.old
        shelf.now res.old }
{
    let short = room(tally.len(), res.len(), BACK_RESULTS);
    if short != 0 {
        return short;
    }
    let t = tally_in(tally);
    match come_back_core(
        neighbours, degrees, waves, counts, ranks, moved, t, shelf, name,
    ) {
        Ok(back) => {
            put_answer(tally, res, back.tally, &[back.moved]);
            0
        }
        Err(refusal) => {
            put_front(res, &[0]);
            u16::from(refusal)
        }
    }
}
