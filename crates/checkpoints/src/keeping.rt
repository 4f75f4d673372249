// The calls that change the shelf: opening it, and keeping the plan under a name.
ghost use Rattle.std.specs.Prelude.{true, ◌≡◌, ◌+◌, ◌≤◌, length, IfOk};
ghost use Rattle.rule.specs.Refusals.{number_in};
ghost use Rattle.memory.specs.Plan.{long_enough};
ghost use Rattle.memory.specs.Lent.{slices_in};
ghost use Rattle.text.specs.Places.{put};
ghost use Rattle.shelf.specs.Shelf.{place_size, place_cells};
ghost use Rattle.checkpoints.specs.Calls.{open_shelf_number, keep_number, shelf_result, open_shelf, keep as kept};
ghost use Rattle.checkpoints.specs.inner.Steps.{KeepReady};

use memory::PlanMemory;
use planner::check_plan;
use rule::{COUNT_CELLS, MOST_BANKS, ROW_CELLS, Refusal};
use shelf::{TALLY_CELLS, place_of, place_size, put_cells, shelf_right};

// The questions of opening a shelf.
fn check_shelf(shelf: &[u16], banks: u16) -> Result<(), Refusal>
    ensures { number_in result ≡ open_shelf_number banks shelf.now }
{
    if MOST_BANKS < usize::from(banks) {
        return Err(Refusal::ManyBanks);
    }
    if shelf.len() < 3 * place_size(banks) {
        return Err(Refusal::ShortMemory);
    }
    Ok(())
}

// Opens a shelf for plans of `banks` banks: nothing is kept on it. Or changes nothing and gives the refusal of the first no.
pub fn open_shelf(shelf: &mut [u16], banks: u16) -> Result<(), Refusal>
    ensures { shelf_result (number_in result) shelf.new ≡ open_shelf banks shelf.old }
{
    check_shelf(shelf, banks)?;
    let noon = place_size(banks);
    let close = noon + noon;
    shelf[0] = 0;
    shelf[noon] = 0;
    shelf[close] = 0;
    Ok(())
}

// The questions of keeping.
pub fn check_keep(plan: PlanMemory, shelf: &[u16], name: &[u8]) -> Result<(), Refusal>
    ensures number { number_in result ≡ keep_number (slices_in plan.entry) plan.entry.tally name.now shelf.now }
    ensures ready { IfOk result (λ _. KeepReady (slices_in plan.entry) plan.entry.tally name.now shelf.now) }
{
    check_shelf(shelf, plan.tally.banks)?;
    check_plan(plan)?;
    if !shelf_right(shelf, plan.tally.banks) {
        return Err(Refusal::NoPlan);
    }
    match place_of(name) {
        None => Err(Refusal::WrongName),
        Some(_) => Ok(()),
    }
}

// Puts the plan's cells and tally, its cap last, into the place at `at`, and marks it used.
fn put_plan(shelf: &mut [u16], at: usize, plan: PlanMemory)
    requires room { at + place_size plan.tally.banks ≤ length shelf.old }
    requires long { long_enough plan.tally.banks (slices_in plan) ≡ true }
    ensures { shelf.new ≡ put (place_cells (slices_in plan.entry) plan.entry.tally) at shelf.old }
{
    let PlanMemory {
        neighbours,
        degrees,
        waves,
        counts,
        ranks,
        tally,
    } = plan;
    let n = usize::from(tally.banks);
    let row = put_cells(shelf, at, &[1], 1);
    let degree = put_cells(shelf, row, neighbours, n * ROW_CELLS);
    let wave = put_cells(shelf, degree, degrees, n);
    let count = put_cells(shelf, wave, waves, n);
    let tally_at = put_cells(shelf, count, counts, n * COUNT_CELLS);
    let rank = put_cells(
        shelf,
        tally_at,
        &[tally.banks, tally.clashes, tally.waves],
        TALLY_CELLS,
    );
    let cap = put_cells(shelf, rank, ranks, n);
    put_cells(shelf, cap, &[tally.cap], 1);
}

// Keeps the plan under a name, or changes nothing and gives the refusal of the first no.
pub fn keep(plan: PlanMemory, shelf: &mut [u16], name: &[u8]) -> Result<(), Refusal>
    ensures { shelf_result (number_in result) shelf.new
        ≡ kept name.now (slices_in plan.entry) plan.entry.tally shelf.old }
{
    check_keep(plan, shelf, name)?;
    let Some(place) = place_of(name) else {
        unreachable!();
    };
    let at = usize::from(place) * place_size(plan.tally.banks);
    put_plan(shelf, at, plan);
    Ok(())
}
