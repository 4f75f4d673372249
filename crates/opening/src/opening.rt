// The call open, and opening for a pass over edits.
ghost use Rattle.memory.specs.Plan.{slices_of};
ghost use Rattle.std.specs.Prelude.{◌≡◌, ◌++◌, ◌≤◌, length, drop, replicate};
ghost use Rattle.memory.specs.Lent.{given};
ghost use Rattle.rule.specs.Refusals.{number_in, value_or};
ghost use Rattle.planner.specs.Calls.{open_result, opened};
ghost use Rattle.planner.specs.inner.Held.{OpensAll, room_number};

use memory::{PlanMemory, Tally, long_enough};
use rule::{COUNT_CELLS, MOST_BANKS, MOST_WAVES, ROW_CELLS, Refusal, UNUSED};

// Sets the first n cells.
fn fill(cells: &mut [u16], n: usize, x: u16)
    requires { n ≤ length cells.old }
    ensures { cells.new ≡ replicate n x ++ drop n cells.old }
{
    cells[..n].fill(x);
}

// The call open with the tally by value: the core of `open`, for programs and for the layers above. Opens a plan of `banks` banks with no
// clash, or changes nothing and gives the refusal of the first no.
pub fn open_core(
    neighbours: &mut [u16],
    degrees: &mut [u16],
    waves: &mut [u16],
    counts: &mut [u16],
    ranks: &mut [u16],
    banks: u16,
    tally: Tally,
) -> Result<Tally, Refusal>
    ensures { open_result (number_in result) (slices_of neighbours.new degrees.new waves.new counts.new ranks.new) (value_or result tally)
        ≡ opened banks (slices_of neighbours.old degrees.old waves.old counts.old ranks.old) tally }
{
    let n = usize::from(banks);
    if MOST_BANKS < n {
        return Err(Refusal::ManyBanks);
    }
    let plan = PlanMemory {
        neighbours,
        degrees,
        waves,
        counts,
        ranks,
        tally,
    };
    if !long_enough(plan, banks) {
        return Err(Refusal::ShortMemory);
    }
    fill(neighbours, n * ROW_CELLS, UNUSED);
    fill(degrees, n, 0);
    fill(waves, n, 0);
    fill(counts, n * COUNT_CELLS, 0);
    fill(ranks, n, 0);
    Ok(Tally {
        banks,
        clashes: 0,
        waves: banks.min(1),
        cap: MOST_WAVES,
    })
}

// Questions 3 and 4, the latter for the trail and moved slices only.
fn check_room(banks: u16, trail: usize, moved: usize) -> Result<(), Refusal>
    ensures { number_in result ≡ room_number banks trail moved }
{
    let n = usize::from(banks);
    if MOST_BANKS < n {
        return Err(Refusal::ManyBanks);
    }
    if trail < n || moved < n {
        return Err(Refusal::ShortMemory);
    }
    Ok(())
}

// Opens a plan of `banks` banks for a list or a journal: question 4 is asked for the trail and moved slices too.
pub fn open_all(
    neighbours: &mut [u16],
    degrees: &mut [u16],
    waves: &mut [u16],
    counts: &mut [u16],
    ranks: &mut [u16],
    trail: &[u16],
    moved: &[u16],
    banks: u16,
    tally: Tally,
) -> Result<Tally, Refusal>
    ensures { OpensAll banks
        (given neighbours.old degrees.old waves.old counts.old ranks.old trail.now moved.now tally) result
        (given neighbours.new degrees.new waves.new counts.new ranks.new trail.now moved.now (value_or result tally)) }
{
    check_room(banks, trail.len(), moved.len())?;
    open_core(neighbours, degrees, waves, counts, ranks, banks, tally)
}
