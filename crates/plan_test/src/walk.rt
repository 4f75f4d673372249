// The walk over the clashes that question 5 takes: each is matched in the rows of its two banks and counted, once.
ghost use Rattle.std.specs.Prelude.{◌≡◌, ◌+◌, ◌<◌, get_or};
ghost use Rattle.plan_test.specs.inner.Walk.{pair_cell, Pairable, Seen, Walk, OrNot};

use memory::{PlanMemory, is_earlier};
use rule::{Bank, COUNT_CELLS, MOST_BANKS, ROW_CELLS};

// Counts for every bank.
pub const ALL_COUNTS: usize = COUNT_CELLS * MOST_BANKS;

// The cell in which the earlier of the two banks is counted by its wave for the later one.
fn pair_cell(plan: PlanMemory, b: Bank, v: Bank) -> usize
    requires { Pairable plan.degrees.now plan.ranks.now plan.waves.now b.0 v.0 }
    ensures { result ≡ pair_cell plan.entry.degrees.now plan.entry.ranks.now plan.entry.waves.now b.0 v.0 }
{
    let at_b = usize::from(b.0);
    let at_v = usize::from(v.0);
    // Both are read before the choice, so that the choice is no branch.
    let for_b = at_b * COUNT_CELLS + usize::from(plan.waves[at_v]);
    let for_v = at_v * COUNT_CELLS + usize::from(plan.waves[at_b]);
    let earlier = is_earlier(plan.degrees, plan.ranks, b, v);
    if earlier { for_v } else { for_b }
}

// Whether b is the next bank of the row of v, the bank in cell i of b's row; if so, v's cursor goes on, and the two are
// counted.
fn match_one(
    plan: PlanMemory,
    cursors: &mut [u16; MOST_BANKS],
    cells: &mut [u16; ALL_COUNTS],
    b: Bank,
    i: usize,
) -> bool
    requires walk { Walk plan.neighbours.now plan.degrees.now plan.ranks.now plan.waves.now
        plan.tally.banks b.0 i cursors.old cells.old }
    requires i_bound { i < get_or plan.degrees.now b.0 0 }
    ensures { OrNot
        (Walk plan.entry.neighbours.now plan.entry.degrees.now plan.entry.ranks.now plan.entry.waves.now
        plan.entry.tally.banks b.0 (i + 1) cursors.new cells.new)
        plan.entry.neighbours.now plan.entry.tally.banks result }
{
    let at = usize::from(b.0);
    let v = plan.neighbours[at * ROW_CELLS + i];
    if v <= b.0 {
        return false;
    }
    let to = usize::from(v);
    let met = cursors[to];
    if plan.degrees[to] <= met || plan.neighbours[to * ROW_CELLS + usize::from(met)] != b.0 {
        return false;
    }
    cursors[to] += 1;
    cells[pair_cell(plan, b, Bank(v))] += 1;
    true
}

// The same for each bank that b's row names and that is not below b: those below have matched b.
pub fn row_matched(
    plan: PlanMemory,
    cursors: &mut [u16; MOST_BANKS],
    cells: &mut [u16; ALL_COUNTS],
    b: Bank,
) -> bool
    requires seen { Seen plan.neighbours.now plan.degrees.now plan.ranks.now plan.waves.now
        plan.tally.banks b.0 cursors.old cells.old }
    requires is_bank { b.0 < plan.tally.banks }
    ensures { OrNot
        (Seen plan.entry.neighbours.now plan.entry.degrees.now plan.entry.ranks.now plan.entry.waves.now
        plan.entry.tally.banks (b.0 + 1) cursors.new cells.new)
        plan.entry.neighbours.now plan.entry.tally.banks result }
{
    let at = usize::from(b.0);
    for i in usize::from(cursors[at])..usize::from(plan.degrees[at]) {
        if !match_one(plan, cursors, cells, b, i) {
            return false;
        }
    }
    true
}
