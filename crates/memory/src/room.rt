// Question 4 of the five slices of plan memory.
ghost use Rattle.std.specs.Prelude.{◌≡◌};
ghost use Rattle.memory.specs.Plan.{long_enough};
ghost use Rattle.memory.specs.Lent.{slices_in};

use crate::PlanMemory;
use rule::{COUNT_CELLS, ROW_CELLS};

// Whether the slices have room for so many banks.
#[tactic(auto, unfolding(crate::specs::Plan::long_enough))]
pub fn long_enough(plan: PlanMemory, banks: u16) -> bool
    ensures { result ≡ long_enough banks (slices_in plan.entry) }
{
    let n = usize::from(banks);
    n * ROW_CELLS <= plan.neighbours.len()
        && n <= plan.degrees.len()
        && n <= plan.waves.len()
        && n * COUNT_CELLS <= plan.counts.len()
        && n <= plan.ranks.len()
}
