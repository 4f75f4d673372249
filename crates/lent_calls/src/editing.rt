// The calls add, strike and set_cap as a caller makes them: the tally is lent, and left as the call leaves it.
ghost use Rattle.memory.specs.Plan.{slices_of};
ghost use Rattle.std.specs.Prelude.{◌≡◌};
ghost use Rattle.rule.specs.declared.Kind.TheVariants.{Adding, Striking};
ghost use Rattle.memory.specs.Lent.{given};
ghost use Rattle.rule.specs.Refusals.{number_in};
ghost use Rattle.planner.specs.Calls.{edit_result};
ghost use Rattle.edit_calls.specs.Calls.{edit, cap_result, set_cap};

use edit_calls::{edit_core, set_cap_core};
use memory::{PlanMemory, Tally};
use planner::Answer;
use rule::{Bank, Kind, Refusal};

// Adds the clash of a and b to the plan in memory, or changes nothing and answers the number of the first no with counts 0.
pub fn add(
    neighbours: &mut [u16],
    degrees: &mut [u16],
    waves: &mut [u16],
    counts: &mut [u16],
    ranks: &[u16],
    trail: &mut [u16],
    moved: &mut [u16],
    tally: &mut Tally,
    a: Bank,
    b: Bank,
) -> Answer
    ensures { edit_result result (given neighbours.new degrees.new waves.new counts.new ranks.now trail.new moved.new tally.new)
        ≡ edit Adding a.0 b.0 (given neighbours.old degrees.old waves.old counts.old ranks.now trail.old moved.old tally.old) }
{
    let added = edit_core(
        Kind::Adding,
        neighbours,
        degrees,
        waves,
        counts,
        ranks,
        trail,
        moved,
        *tally,
        a,
        b,
    );
    *tally = added.tally;
    added.answer
}

// Strikes the clash of a and b from the plan in memory, or changes nothing and answers the number of the first no with counts 0.
pub fn strike(
    neighbours: &mut [u16],
    degrees: &mut [u16],
    waves: &mut [u16],
    counts: &mut [u16],
    ranks: &[u16],
    trail: &mut [u16],
    moved: &mut [u16],
    tally: &mut Tally,
    a: Bank,
    b: Bank,
) -> Answer
    ensures { edit_result result (given neighbours.new degrees.new waves.new counts.new ranks.now trail.new moved.new tally.new)
        ≡ edit Striking a.0 b.0 (given neighbours.old degrees.old waves.old counts.old ranks.now trail.old moved.old tally.old) }
{
    let struck = edit_core(
        Kind::Striking,
        neighbours,
        degrees,
        waves,
        counts,
        ranks,
        trail,
        moved,
        *tally,
        a,
        b,
    );
    *tally = struck.tally;
    struck.answer
}

// Sets the most waves that edits may lead to, or changes nothing and gives the refusal of the first no.
pub fn set_cap(
    neighbours: &[u16],
    degrees: &[u16],
    waves: &[u16],
    counts: &[u16],
    ranks: &[u16],
    tally: &mut Tally,
    cap: u16,
) -> Result<(), Refusal>
    ensures { cap_result (number_in result) tally.new
        ≡ set_cap cap (slices_of neighbours.now degrees.now waves.now counts.now ranks.now) tally.old }
{
    let plan = PlanMemory {
        neighbours,
        degrees,
        waves,
        counts,
        ranks,
        tally: *tally,
    };
    *tally = set_cap_core(plan, cap)?;
    Ok(())
}
