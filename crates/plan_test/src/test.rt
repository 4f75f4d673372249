// Question 5: whether lent memory holds a plan. Each bank is tested from the cells alone; no plan is worked out.
ghost use Rattle.std.specs.Prelude.{true, ◌≡◌, ◌↔◌, ℕ, ◌*◌, ◌≤◌, ◌<◌, IsTrue, length, get_or};
ghost use Rattle.memory.specs.Lent.{slices_in};
ghost use Rattle.memory.specs.Plan.{long_enough, is_plan, cap_fits, holds};
ghost use Rattle.memory.specs.inner.Test.{row, Named, RowRight, RowsRight, Rows, Lowest};
ghost use Rattle.memory.specs.inner.Test.{part, PartRight, CellsRight, ClashesRight, Under, Small, WavesSmall, sum};

use crate::walk::{ALL_COUNTS, row_matched};
use memory::{PlanMemory, Tally, wave_count};
use rule::{Bank, COUNT_CELLS, MOST_BANKS, MOST_RANK, MOST_WAVES, ROW_CELLS, UNUSED, Wave};

// Whether cell i of b's row is a bank other than b, larger than that before it.
fn named_right(row: &[u16], i: usize, banks: u16, b: Bank) -> bool
    requires { i < length row.now }
    ensures { IsTrue result ↔ Named row.now banks b.0 i }
{
    let v = row[i];
    v < banks && Bank(v) != b && (i == 0 || row[i - 1] < v)
}

// The same of the first cells.
fn all_named(row: &[u16], named: usize, banks: u16, b: Bank) -> bool
    requires { named ≤ length row.now }
    ensures { IsTrue result ↔ ((i : ℕ) → i < named → Named row.now banks b.0 i) }
{
    (0..named).all(|i| named_right(row, i, banks, b))
}

// Whether the cells of a row that are left over hold UNUSED. All cells are counted that do, so that they are tested side by side: a chain of `all`
// tests one after the other.
fn rest_unused(row: &[u16], named: usize) -> bool
    requires size { length row.now ≡ 23 }
    requires few { named ≤ 23 }
    requires none_named { (i : ℕ) → i < named → get_or row.now i 0 ≡ 65535 → ⊥ }
    ensures { IsTrue result ↔ ((i : ℕ) → named ≤ i → i < 23 → get_or row.now i 0 ≡ 65535) }
{
    let mut unused: u16 = 0;
    for cell in row {
        unused += u16::from(*cell == UNUSED);
    }
    named + usize::from(unused) == ROW_CELLS
}

// Whether b's row ascends, names `degree` banks other than b, and is filled up with UNUSED.
fn row_right(row: &[u16], degree: u16, banks: u16, b: Bank) -> bool
    requires { length row.now ≡ 23 }
    ensures { IsTrue result ↔ RowRight row.now degree banks b.0 }
{
    let named = usize::from(degree);
    named <= ROW_CELLS && all_named(row, named, banks, b) && rest_unused(row, named)
}

// The same of bank b's cells.
fn bank_row_right(plan: PlanMemory, b: Bank) -> bool
    requires long_neighbours { 23 * plan.tally.banks ≤ length plan.neighbours.now }
    requires long_degrees { plan.tally.banks ≤ length plan.degrees.now }
    requires is_bank { b.0 < plan.tally.banks }
    ensures { IsTrue result ↔ RowRight (row plan.entry.neighbours.now b.0)
        (get_or plan.entry.degrees.now b.0 0) plan.entry.tally.banks b.0 }
{
    let at = usize::from(b.0);
    let start = at * ROW_CELLS;
    row_right(
        &plan.neighbours[start..start + ROW_CELLS],
        plan.degrees[at],
        plan.tally.banks,
        b,
    )
}

// The same of every row.
fn rows_right(plan: PlanMemory) -> bool
    requires long_neighbours { 23 * plan.tally.banks ≤ length plan.neighbours.now }
    requires long_degrees { plan.tally.banks ≤ length plan.degrees.now }
    ensures { IsTrue result ↔ RowsRight plan.entry.neighbours.now plan.entry.degrees.now plan.entry.tally.banks }
{
    (0..plan.tally.banks).all(|b| bank_row_right(plan, Bank(b)))
}

// Whether the first cells are below a bound.
fn all_under(cells: &[u16], banks: u16, bound: u16) -> bool
    requires { banks ≤ length cells.now }
    ensures { IsTrue result ↔ Under bound cells.now banks }
{
    cells[..usize::from(banks)].iter().all(|x| *x < bound)
}

// Whether the 24 cells are equal. All are counted that are, so that they are tested side by side.
fn cells_equal(part: &[u16], cells: &[u16]) -> bool
    requires part_len { length part.now ≡ 24 }
    requires cells_len { length cells.now ≡ 24 }
    ensures { IsTrue result ↔ ((c : ℕ) → c < 24 → get_or part.now c 0 ≡ get_or cells.now c 0) }
{
    let mut equal: u16 = 0;
    for c in 0..COUNT_CELLS {
        equal += u16::from(part[c] == cells[c]);
    }
    equal == MOST_WAVES
}

// Whether the wave is the lowest with a count of 0.
fn is_lowest(cells: &[u16], wave: Wave) -> bool
    requires cells_len { length cells.now ≡ 24 }
    requires wave_bound { wave.0 < 24 }
    ensures { IsTrue result ↔ Lowest (λ c. get_or cells.now c 0) wave.0 }
{
    cells.iter().position(|x| *x == 0) == Some(usize::from(wave.0))
}

// Whether a bank's part of Counts holds its counts, of which its wave is the lowest that is 0.
fn part_right(part: &[u16], cells: &[u16], wave: Wave) -> bool
    requires part_len { length part.now ≡ 24 }
    requires cells_len { length cells.now ≡ 24 }
    requires wave_bound { wave.0 < 24 }
    ensures { IsTrue result ↔ PartRight part.now (λ c. get_or cells.now c 0) wave.0 }
{
    cells_equal(part, cells) && is_lowest(cells, wave)
}

// The same of bank b's cells.
fn bank_counts_right(plan: PlanMemory, cells: &[u16], b: Bank) -> bool
    requires waves_small { WavesSmall plan.waves.now plan.tally.banks }
    requires long_cells { 24 * plan.tally.banks ≤ length cells.now }
    requires long_counts { 24 * plan.tally.banks ≤ length plan.counts.now }
    requires is_bank { b.0 < plan.tally.banks }
    ensures { IsTrue result ↔ PartRight (part plan.entry.counts.now b.0)
        (λ c. get_or (part cells.now b.0) c 0) (get_or plan.entry.waves.now b.0 0) }
{
    let at = usize::from(b.0);
    let start = at * COUNT_CELLS;
    let end = start + COUNT_CELLS;
    part_right(
        &plan.counts[start..end],
        &cells[start..end],
        Wave(plan.waves[at]),
    )
}

// The same of every bank. A loop: the proof of a chain does not close for cells beside the plan.
fn counts_right(plan: PlanMemory, cells: &[u16]) -> bool
    requires waves_small { WavesSmall plan.waves.now plan.tally.banks }
    requires long_cells { 24 * plan.tally.banks ≤ length cells.now }
    requires long_counts { 24 * plan.tally.banks ≤ length plan.counts.now }
    ensures { IsTrue result ↔ CellsRight plan.entry.waves.now cells.now plan.entry.counts.now plan.entry.tally.banks }
{
    for b in 0..plan.tally.banks {
        if !bank_counts_right(plan, cells, Bank(b)) {
            return false;
        }
    }
    true
}

// Whether the rows, which are right one by one, name each other, and Counts and the waves are right by them.
fn clashes_right(plan: PlanMemory) -> bool
    requires rows { Rows plan.neighbours.now plan.degrees.now plan.tally.banks }
    requires waves_small { WavesSmall plan.waves.now plan.tally.banks }
    requires long_counts { 24 * plan.tally.banks ≤ length plan.counts.now }
    requires long_ranks { plan.tally.banks ≤ length plan.ranks.now }
    ensures { IsTrue result ↔ ClashesRight (slices_in plan.entry) plan.entry.tally.banks }
{
    let mut cursors = [0u16; MOST_BANKS];
    let mut cells = [0u16; ALL_COUNTS];
    for b in 0..plan.tally.banks {
        if !row_matched(plan, &mut cursors, &mut cells, Bank(b)) {
            return false;
        }
    }
    counts_right(plan, &cells[..])
}

// The sum of the degrees.
fn degree_sum(degrees: &[u16], banks: u16) -> u16
    requires few { banks ≤ 1024 }
    requires long { banks ≤ length degrees.now }
    requires small { Small degrees.now banks }
    ensures { result ≡ sum degrees.now banks }
{
    degrees[..usize::from(banks)].iter().sum()
}

// Whether memory that is long enough is a plan, cell by cell, the tally's numbers included.
fn is_plan(plan: PlanMemory) -> bool
    requires few { plan.tally.banks ≤ 1024 }
    requires long { long_enough plan.tally.banks (slices_in plan) ≡ true }
    ensures { result ≡ is_plan (slices_in plan.entry) plan.entry.tally }
{
    let tally = plan.tally;
    rows_right(plan)
        && all_under(plan.waves, tally.banks, MOST_WAVES)
        && all_under(plan.ranks, tally.banks, MOST_RANK + 1)
        && clashes_right(plan)
        && tally.clashes == degree_sum(plan.degrees, tally.banks) / 2
        && tally.waves == wave_count(plan.waves, tally.banks)
}

// Whether the tally's cap is from 1 to 24, and not below its waves.
#[tactic(auto, unfolding(memory::specs::Plan::cap_fits))]
fn cap_fits(tally: Tally) -> bool
    ensures { result ≡ cap_fits tally }
{
    (1..=MOST_WAVES).contains(&tally.cap) && tally.waves <= tally.cap
}

// Whether memory that is long enough holds a plan, under a cap that fits it.
pub fn holds_plan(plan: PlanMemory) -> bool
    requires banks_bound { plan.tally.banks ≤ 1024 }
    requires ranks_value { long_enough plan.tally.banks (slices_in plan) ≡ true }
    ensures { result ≡ holds (slices_in plan.entry) plan.entry.tally }
{
    cap_fits(plan.tally) && is_plan(plan)
}
