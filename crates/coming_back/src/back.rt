// Coming back to a kept plan.
ghost use Rattle.std.specs.Prelude.{true, List, ◌≡◌, ℕ, ◌+◌, ◌≤◌, ◌<◌, length, IfOk};
ghost use Rattle.rule.specs.Refusals.{number_in};
ghost use Rattle.memory.specs.Plan.{long_enough, slices_of};
ghost use Rattle.memory.specs.Lent.{slices_in};
ghost use Rattle.shelf.specs.Shelf.{place_size, slices_in as slices_at};
ghost use Rattle.checkpoints.specs.Calls.{back_number, back_result, back_left, over_all, came_back, come_back};
ghost use Rattle.checkpoints.specs.inner.Steps.{Listed, KeepReady};

use checkpoints::{CameBack, check_keep};
use memory::{PlanMemory, Tally};
use rule::{Bank, COUNT_CELLS, MOST_BANKS, ROW_CELLS, Refusal};
use shelf::{TALLY_CELLS, place_of, place_size, put_part, tally_in};

// The questions of coming back.
fn check_back(plan: PlanMemory, moved: &[u16], shelf: &[u16], name: &[u8]) -> Result<(), Refusal>
    ensures number { number_in result ≡ back_number (slices_in plan.entry) plan.entry.tally moved.now name.now shelf.now }
    ensures ready { IfOk result (λ _.
        KeepReady (slices_in plan.entry) plan.entry.tally name.now shelf.now × (plan.entry.tally.banks ≤ length moved.now)) }
{
    let n = usize::from(plan.tally.banks);
    if MOST_BANKS < n {
        return Err(Refusal::ManyBanks);
    }
    if moved.len() < n {
        return Err(Refusal::ShortMemory);
    }
    check_keep(plan, shelf, name)?;
    let Some(place) = place_of(name) else {
        unreachable!();
    };
    let at = usize::from(place) * place_size(plan.tally.banks);
    if shelf[at] != 1 {
        return Err(Refusal::NothingKept);
    }
    Ok(())
}

// Lists bank b after `count` others if its wave differs, and answers how many are listed.
fn list_bank(old: &[u16], new: &[u16], moved: &mut [u16], b: Bank, count: u16) -> u16
    requires bank { (b.0 < length old.now) × (b.0 < length new.now) }
    requires room { (count < length moved.old) × (count < 1024) }
    ensures { (was : List ℕ)
        → Listed b.0 old.now new.now was count moved.old
        → Listed (b.0 + 1) old.now new.now was result moved.new }
{
    let at = usize::from(b.0);
    if old[at] == new[at] {
        return count;
    }
    let next = usize::from(count);
    moved[next] = b.0;
    count + 1
}

// Lists the banks whose wave differs at the front of the moved slice, ascending, and answers how many they are.
fn list_moved(old: &[u16], new: &[u16], moved: &mut [u16], banks: u16) -> u16
    requires { (banks ≤ 1024) × (banks ≤ length old.now) × (banks ≤ length new.now) × (banks ≤ length moved.old) }
    ensures { Listed banks old.now new.now moved.old result moved.new }
{
    let mut count: u16 = 0;
    for b in 0..banks {
        count = list_bank(old, new, moved, Bank(b), count);
    }
    count
}

// The plan slices become what the place holds.
fn bring_back(
    neighbours: &mut [u16],
    degrees: &mut [u16],
    waves: &mut [u16],
    counts: &mut [u16],
    ranks: &mut [u16],
    place: &[u16],
    n: usize,
)
    requires size { length place.now ≡ place_size n }
    requires few { n ≤ 1024 }
    requires long { long_enough n (slices_of neighbours.old degrees.old waves.old counts.old ranks.old) ≡ true }
    ensures { slices_of neighbours.new degrees.new waves.new counts.new ranks.new
        ≡ over_all (slices_at n place.now) (slices_of neighbours.old degrees.old waves.old counts.old ranks.old) }
{
    let degree = 1 + n * ROW_CELLS;
    let wave = degree + n;
    let count = wave + n;
    let rank = count + n * COUNT_CELLS + TALLY_CELLS;
    put_part(neighbours, place, 1, n * ROW_CELLS);
    put_part(degrees, place, degree, n);
    put_part(waves, place, wave, n);
    put_part(counts, place, count, n * COUNT_CELLS);
    put_part(ranks, place, rank, n);
}

// Plan memory and tally, its cap included, become what the place holds, and the banks whose wave differs are listed. The
// tally that is lent is that of the state left.
fn return_to(
    neighbours: &mut [u16],
    degrees: &mut [u16],
    waves: &mut [u16],
    counts: &mut [u16],
    ranks: &mut [u16],
    moved: &mut [u16],
    tally: Tally,
    place: &[u16],
) -> CameBack
    requires fits { (tally.banks ≤ 1024) × (length place.now ≡ place_size tally.banks) × (tally.banks ≤ length moved.old) }
    requires long { long_enough tally.banks (slices_of neighbours.old degrees.old waves.old counts.old ranks.old) ≡ true }
    ensures { back_result 0 result.moved (slices_of neighbours.new degrees.new waves.new counts.new ranks.new) result.tally moved.new
        ≡ came_back tally.banks place.now (slices_of neighbours.old degrees.old waves.old counts.old ranks.old) moved.old }
{
    let n = usize::from(tally.banks);
    let wave = 1 + n * (ROW_CELLS + 1);
    let count = wave + n;
    let differing = list_moved(waves, &place[wave..count], moved, tally.banks);
    bring_back(neighbours, degrees, waves, counts, ranks, place, n);
    let kept = tally_in(place, n);
    CameBack {
        moved: differing,
        tally: kept,
    }
}

// Coming back with the tally by value: the core of `come_back`, for programs and other crates. Or changes nothing and gives the refusal of the first no.
pub fn come_back_core(
    neighbours: &mut [u16],
    degrees: &mut [u16],
    waves: &mut [u16],
    counts: &mut [u16],
    ranks: &mut [u16],
    moved: &mut [u16],
    tally: Tally,
    shelf: &[u16],
    name: &[u8],
) -> Result<CameBack, Refusal>
    ensures { back_left result (slices_of neighbours.new degrees.new waves.new counts.new ranks.new) tally moved.new
        ≡ come_back name.now (slices_of neighbours.old degrees.old waves.old counts.old ranks.old) tally moved.old shelf.now }
{
    let plan = PlanMemory {
        neighbours,
        degrees,
        waves,
        counts,
        ranks,
        tally,
    };
    check_back(plan, moved, shelf, name)?;
    let Some(place) = place_of(name) else {
        unreachable!();
    };
    let size = place_size(tally.banks);
    let at = usize::from(place) * size;
    let end = at + size;
    Ok(return_to(
        neighbours,
        degrees,
        waves,
        counts,
        ranks,
        moved,
        tally,
        &shelf[at..end],
    ))
}
