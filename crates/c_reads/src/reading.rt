// Reading one bank of a plan, or how many waves it has at most.
ghost use Rattle.memory.specs.Plan.{slices_of};
ghost use Rattle.std.specs.Prelude.{◌≡◌};
ghost use Rattle.c_reads.specs.Reads.{read_answered, wave_call, clashes_call, bound_call, direct_call};

use c_cells::{put_result, room, tally_in};
use direct_rule::wave_by_rule;
use memory::{PlanMemory, put_front};
use planner::{clashes_of, wave_of};
use rule::{Bank, ROW_CELLS};
use wave_bounds::wave_bound;

const WAVE_RESULTS: usize = 1;

const CLASHES_RESULTS: usize = 2;

const BOUND_RESULTS: usize = 1;

// The wave of bank b: the result.
pub fn wave_of_in(
    neighbours: &[u16],
    degrees: &[u16],
    waves: &[u16],
    counts: &[u16],
    ranks: &[u16],
    tally: &[u16],
    res: &mut [u16],
    b: u16,
) -> u16
    ensures { read_answered result res.new
        ≡ wave_call b (slices_of neighbours.now degrees.now waves.now counts.now ranks.now) tally.now res.old }
{
    let short = room(tally.len(), res.len(), WAVE_RESULTS);
    if short != 0 {
        return short;
    }
    let plan = PlanMemory {
        neighbours,
        degrees,
        waves,
        counts,
        ranks,
        tally: tally_in(tally),
    };
    put_result(res, wave_of(plan, Bank(b)).map(|wave| wave.0))
}

// The clashes of bank b: the results are the cell of `neighbours` where they start, and how many they are. The number is that of
// `wave_of_in`.
pub fn clashes_of_in(
    neighbours: &[u16],
    degrees: &[u16],
    waves: &[u16],
    counts: &[u16],
    ranks: &[u16],
    tally: &[u16],
    res: &mut [u16],
    b: u16,
) -> u16
    ensures { read_answered result res.new
        ≡ clashes_call b (slices_of neighbours.now degrees.now waves.now counts.now ranks.now) tally.now res.old }
{
    let short = room(tally.len(), res.len(), CLASHES_RESULTS);
    if short != 0 {
        return short;
    }
    let plan = PlanMemory {
        neighbours,
        degrees,
        waves,
        counts,
        ranks,
        tally: tally_in(tally),
    };
    match wave_of(plan, Bank(b)) {
        Ok(_) => {
            let part = clashes_of(plan, Bank(b));
            put_front(
                res,
                &[(ROW_CELLS * usize::from(b)) as u16, part.len() as u16],
            );
            0
        }
        Err(refusal) => {
            put_front(res, &[0, 0]);
            u16::from(refusal)
        }
    }
}

// How many waves the plan has at most: the result.
pub fn wave_bound_in(
    neighbours: &[u16],
    degrees: &[u16],
    waves: &[u16],
    counts: &[u16],
    ranks: &[u16],
    tally: &[u16],
    res: &mut [u16],
) -> u16
    ensures { read_answered result res.new
        ≡ bound_call (slices_of neighbours.now degrees.now waves.now counts.now ranks.now) tally.now res.old }
{
    let short = room(tally.len(), res.len(), BOUND_RESULTS);
    if short != 0 {
        return short;
    }
    let plan = PlanMemory {
        neighbours,
        degrees,
        waves,
        counts,
        ranks,
        tally: tally_in(tally),
    };
    put_result(res, wave_bound(plan))
}

// The wave of bank b, read straight off the rule: the result.
pub fn wave_by_rule_in(
    neighbours: &[u16],
    degrees: &[u16],
    waves: &[u16],
    counts: &[u16],
    ranks: &[u16],
    tally: &[u16],
    res: &mut [u16],
    b: u16,
) -> u16
    ensures { read_answered result res.new
        ≡ direct_call b (slices_of neighbours.now degrees.now waves.now counts.now ranks.now) tally.now res.old }
{
    let short = room(tally.len(), res.len(), WAVE_RESULTS);
    if short != 0 {
        return short;
    }
    let plan = PlanMemory {
        neighbours,
        degrees,
        waves,
        counts,
        ranks,
        tally: tally_in(tally),
    };
    put_result(res, wave_by_rule(plan, Bank(b)).map(|wave| wave.0))
}
