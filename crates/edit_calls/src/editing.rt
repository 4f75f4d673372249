// An edit with the tally by value.
ghost use Rattle.std.specs.Prelude.{◌≡◌};
ghost use Rattle.memory.specs.Lent.{given};
ghost use Rattle.planner.specs.Calls.{edit_result};
ghost use Rattle.edit_calls.specs.Calls.{edit};

use capped_edits::edit_within;
use held_edits::refuse;
use memory::{PlanMemory, Tally};
use planner::{Edited, check_memory};
use rule::{Bank, Kind};

// An edit with the tally by value: the core of the calls `add` and `strike` of `lent_calls`, for programs and other crates.
pub fn edit_core(
    kind: Kind,
    neighbours: &mut [u16],
    degrees: &mut [u16],
    waves: &mut [u16],
    counts: &mut [u16],
    ranks: &[u16],
    trail: &mut [u16],
    moved: &mut [u16],
    tally: Tally,
    a: Bank,
    b: Bank,
) -> Edited
    ensures { edit_result result.answer (given neighbours.new degrees.new waves.new counts.new ranks.now trail.new moved.new result.tally)
        ≡ edit kind a.0 b.0 (given neighbours.old degrees.old waves.old counts.old ranks.now trail.old moved.old tally) }
{
    let plan = PlanMemory {
        neighbours,
        degrees,
        waves,
        counts,
        ranks,
        tally,
    };
    if let Err(refusal) = check_memory(plan, trail, moved) {
        return refuse(refusal, tally);
    }
    edit_within(
        kind,
        neighbours,
        degrees,
        waves,
        counts,
        ranks,
        trail,
        moved,
        tally,
        a,
        b,
        Ok(()),
    )
}
