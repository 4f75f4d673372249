// Trying crew sizes.
ghost use Rattle.memory.specs.Plan.{slices_of};
ghost use Rattle.std.specs.Prelude.{◌≡◌};
ghost use Rattle.c_reads.specs.Reads.{read_answered};
ghost use Rattle.c_reads.specs.Crews.{crew_answered, crew_call, least_call};

use c_cells::{put_result, room, tally_in};
use crews::{crew_steps, least_crew};
use memory::PlanMemory;

const CREW_RESULTS: usize = 1;

// The step in which each bank is served, in n cells of `steps`; the total is the result.
pub fn crew_steps_in(
    neighbours: &[u16],
    degrees: &[u16],
    waves: &[u16],
    counts: &[u16],
    ranks: &[u16],
    tally: &[u16],
    steps: &mut [u16],
    res: &mut [u16],
    couriers: u16,
) -> u16
    ensures { crew_answered result steps.new res.new
        ≡ crew_call couriers (slices_of neighbours.now degrees.now waves.now counts.now ranks.now) tally.now steps.old res.old }
{
    let short = room(tally.len(), res.len(), CREW_RESULTS);
    if short != 0 {
        return short;
    }
    let plan = PlanMemory {
        neighbours,
        degrees,
        waves,
        counts,
        ranks,
        tally: tally_in(tally),
    };
    put_result(res, crew_steps(plan, couriers, steps))
}

// The least number of couriers that ends within `limit` steps: the result.
pub fn least_crew_in(
    neighbours: &[u16],
    degrees: &[u16],
    waves: &[u16],
    counts: &[u16],
    ranks: &[u16],
    tally: &[u16],
    res: &mut [u16],
    limit: u16,
) -> u16
    ensures { read_answered result res.new
        ≡ least_call limit (slices_of neighbours.now degrees.now waves.now counts.now ranks.now) tally.now res.old }
{
    let short = room(tally.len(), res.len(), CREW_RESULTS);
    if short != 0 {
        return short;
    }
    let plan = PlanMemory {
        neighbours,
        degrees,
        waves,
        counts,
        ranks,
        tally: tally_in(tally),
    };
    put_result(res, least_crew(plan, limit))
}
