// Opening a plan, and reading one bank of it, or how many waves it has at most.
ghost use Rattle.memory.specs.Plan.{slices_of};
ghost use Rattle.std.specs.Prelude.{◌≡◌};
ghost use Rattle.c_reads.specs.Reads.{read_answered, wave_call, clashes_call, bound_call, direct_call};
ghost use Rattle.c_calls.specs.Calls.{open_answered, open_call};

use c_calls::open_in;
use c_reads::{clashes_of_in, wave_bound_in, wave_by_rule_in, wave_of_in};

// Opens a plan of `banks` banks with no clash.
#[unsafe(no_mangle)]
pub extern "C" fn wave_plan_open(
    neighbours: &mut [u16],
    degrees: &mut [u16],
    waves: &mut [u16],
    counts: &mut [u16],
    ranks: &mut [u16],
    tally: &mut [u16],
    banks: u16,
) -> u16
    ensures { open_answered result (slices_of neighbours.new degrees.new waves.new counts.new ranks.new) tally.new
        ≡ open_call banks (slices_of neighbours.old degrees.old waves.old counts.old ranks.old) tally.old }
{
    open_in(neighbours, degrees, waves, counts, ranks, tally, banks)
}

// The wave of bank b: the result.
#[unsafe(no_mangle)]
pub extern "C" fn wave_plan_wave_of(
    neighbours: &[u16],
    degrees: &[u16],
    waves: &[u16],
    counts: &[u16],
    ranks: &[u16],
    tally: &[u16],
    res: &mut [u16],
    b: u16,
) -> u16
    ensures { read_answered result res.new
        ≡ wave_call b (slices_of neighbours.now degrees.now waves.now counts.now ranks.now) tally.now res.old }
{
    wave_of_in(neighbours, degrees, waves, counts, ranks, tally, res, b)
}

// The clashes of bank b: the results are the cell of `neighbours` where they start, and how many they are. The number is that of
// wave_plan_wave_of.
#[unsafe(no_mangle)]
pub extern "C" fn wave_plan_clashes_of(
    neighbours: &[u16],
    degrees: &[u16],
    waves: &[u16],
    counts: &[u16],
    ranks: &[u16],
    tally: &[u16],
    res: &mut [u16],
    b: u16,
) -> u16
    ensures { read_answered result res.new
        ≡ clashes_call b (slices_of neighbours.now degrees.now waves.now counts.now ranks.now) tally.now res.old }
{
    clashes_of_in(neighbours, degrees, waves, counts, ranks, tally, res, b)
}

// How many waves the plan has at most: the result.
#[unsafe(no_mangle)]
pub extern "C" fn wave_plan_wave_bound(
    neighbours: &[u16],
    degrees: &[u16],
    waves: &[u16],
    counts: &[u16],
    ranks: &[u16],
    tally: &[u16],
    res: &mut [u16],
) -> u16
    ensures { read_answered result res.new
        ≡ bound_call (slices_of neighbours.now degrees.now waves.now counts.now ranks.now) tally.now res.old }
{
    wave_bound_in(neighbours, degrees, waves, counts, ranks, tally, res)
}

// The wave of bank b, read straight off the rule: the result.
#[unsafe(no_mangle)]
pub extern "C" fn wave_plan_wave_by_rule(
    neighbours: &[u16],
    degrees: &[u16],
    waves: &[u16],
    counts: &[u16],
    ranks: &[u16],
    tally: &[u16],
    res: &mut [u16],
    b: u16,
) -> u16
    ensures { read_answered result res.new
        ≡ direct_call b (slices_of neighbours.now degrees.now waves.now counts.now ranks.now) tally.now res.old }
{
    wave_by_rule_in(neighbours, degrees, waves, counts, ranks, tally, res, b)
}
