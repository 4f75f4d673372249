// The edits of one clash, whose results are the moved count and the trail count; and the cap.
ghost use Rattle.memory.specs.Plan.{slices_of};
ghost use Rattle.std.specs.Prelude.{◌≡◌};
ghost use Rattle.c_cells.specs.CellMemory.{answered};
ghost use Rattle.c_cells.specs.Lent.{cells_given};
ghost use Rattle.c_calls.specs.Calls.{edit_call, cap_answered, cap_call};

use c_cells::{put_answer, put_tally, room, tally_in};
use edit_calls::{edit_core, set_cap_core};
use memory::PlanMemory;
use rule::{Bank, Kind};

const EDIT_RESULTS: usize = 2;

// An edit of this kind.
pub fn edit_in(
    kind: Kind,
    neighbours: &mut [u16],
    degrees: &mut [u16],
    waves: &mut [u16],
    counts: &mut [u16],
    ranks: &[u16],
    trail: &mut [u16],
    moved: &mut [u16],
    tally: &mut [u16],
    res: &mut [u16],
    a: u16,
    b: u16,
) -> u16
    ensures { answered result (cells_given neighbours.new degrees.new waves.new counts.new ranks.now trail.new moved.new tally.new res.new)
        ≡ edit_call kind a b (cells_given neighbours.old degrees.old waves.old counts.old ranks.now trail.old moved.old tally.old res.old) }
{
    let short = room(tally.len(), res.len(), EDIT_RESULTS);
    if short != 0 {
        return short;
    }
    let t = tally_in(tally);
    let r = edit_core(
        kind,
        neighbours,
        degrees,
        waves,
        counts,
        ranks,
        trail,
        moved,
        t,
        Bank(a),
        Bank(b),
    );
    put_answer(tally, res, r.tally, &[r.answer.moved, r.answer.trail]);
    r.answer.number
}

// Sets the cap of the plan.
pub fn set_cap_in(
    neighbours: &[u16],
    degrees: &[u16],
    waves: &[u16],
    counts: &[u16],
    ranks: &[u16],
    tally: &mut [u16],
    cap: u16,
) -> u16
    ensures { cap_answered result tally.new
        ≡ cap_call cap (slices_of neighbours.now degrees.now waves.now counts.now ranks.now) tally.old }
{
    let short = room(tally.len(), 0, 0);
    if short != 0 {
        return short;
    }
    let plan = PlanMemory {
        neighbours,
        degrees,
        waves,
        counts,
        ranks,
        tally: tally_in(tally),
    };
    match set_cap_core(plan, cap) {
        Ok(after) => {
            put_tally(tally, after);
            0
        }
        Err(refusal) => u16::from(refusal),
    }
}
