// Trying crew sizes.
ghost use Rattle.memory.specs.Plan.{slices_of};
ghost use Rattle.std.specs.Prelude.{◌≡◌};
ghost use Rattle.c_reads.specs.Reads.{read_answered};
ghost use Rattle.c_reads.specs.Crews.{crew_answered, crew_call, least_call};

use c_reads::{crew_steps_in, least_crew_in};

// The step in which each bank is served, in n cells of `steps`; the total is the result.
#[unsafe(no_mangle)]
pub extern "C" fn wave_plan_crew_steps(
    neighbours: &[u16],
    degrees: &[u16],
    waves: &[u16],
    counts: &[u16],
    ranks: &[u16],
    tally: &[u16],
    steps: &mut [u16],
    res: &mut [u16],
    couriers: u16,
) -> u16
    ensures { crew_answered result steps.new res.new
        ≡ crew_call couriers (slices_of neighbours.now degrees.now waves.now counts.now ranks.now) tally.now steps.old res.old }
{
    crew_steps_in(
        neighbours, degrees, waves, counts, ranks, tally, steps, res, couriers,
    )
}

// The least number of couriers that ends within `limit` steps: the result.
#[unsafe(no_mangle)]
pub extern "C" fn wave_plan_least_crew(
    neighbours: &[u16],
    degrees: &[u16],
    waves: &[u16],
    counts: &[u16],
    ranks: &[u16],
    tally: &[u16],
    res: &mut [u16],
    limit: u16,
) -> u16
    ensures { read_answered result res.new
        ≡ least_call limit (slices_of neighbours.now degrees.now waves.now counts.now ranks.now) tally.now res.old }
{
    least_crew_in(neighbours, degrees, waves, counts, ranks, tally, res, limit)
}
