// The calls that only read: the wave of a bank and its clashes.
ghost use Rattle.rule.specs.Refusals.{number_in};
ghost use Rattle.std.specs.Prelude.{◌≡◌, ◌<◌};
ghost use Rattle.rule.specs.Graph.{Graph, neighbours as neighboursOf};
ghost use Rattle.memory.specs.Lent.{slices_in};
ghost use Rattle.memory.specs.Plan.{PlanOf};
ghost use Rattle.planner.specs.Calls.{bank_number, wave_in, wave_of, clashes_of};

use crate::checks::check_bank;
use memory::PlanMemory;
use rule::{Bank, ROW_CELLS, Refusal, Wave};

// The wave of bank b, or the refusal of the first no.
pub fn wave_of(plan: PlanMemory, b: Bank) -> Result<Wave, Refusal>
    ensures number { number_in result ≡ bank_number b.0 (slices_in plan.entry) plan.entry.tally }
    ensures wave { wave_in result ≡ wave_of b.0 (slices_in plan.entry) plan.entry.tally }
{
    check_bank(plan, b)?;
    let at = b.0 as usize;
    Ok(Wave(plan.waves[at]))
}

// The clashes of bank b in memory that holds a plan: the filled part of its row. The layers above call it where they know that.
pub fn clashes_held<'n>(plan: PlanMemory<'n, '_>, b: Bank) -> &'n [u16]
    requires { ((G : Graph) × PlanOf G (slices_in plan) plan.tally) × (b.0 < plan.tally.banks) }
    ensures { (G : Graph)
        → PlanOf G (slices_in plan.entry) plan.entry.tally
        → result.now ≡ neighboursOf G b.0 }
{
    let at = b.0 as usize;
    let start = at * ROW_CELLS;
    let end = start + plan.degrees[at] as usize;
    &plan.neighbours[start..end]
}

// The clashes of bank b: the filled part of its row, or an empty part where wave_of gives a number.
pub fn clashes_of<'n>(plan: PlanMemory<'n, '_>, b: Bank) -> &'n [u16]
    ensures { result.now ≡ clashes_of b.0 (slices_in plan.entry) plan.entry.tally }
{
    match check_bank(plan, b) {
        Ok(()) => clashes_held(plan, b),
        Err(_) => &plan.neighbours[0..0],
    }
}
