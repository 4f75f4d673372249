// How many waves a plan has at most, from its degrees alone.
#![tactic(auto)]

ghost use Rattle.memory.specs.Lent.{slices_in};
ghost use Rattle.std.specs.Prelude.{◌≡◌};
ghost use Rattle.rule.specs.Refusals.{number_in, value_or};
ghost use Rattle.cell_counts.specs.inner.Cells.{FewEach};
ghost use Rattle.planner.specs.Calls.{plan_number};
ghost use Rattle.wave_bounds.specs.Calls.{bound_of};
ghost use Rattle.wave_bounds.specs.inner.Degrees.{cells_from, Above};

use cell_counts::count_cells;
use memory::PlanMemory;
use planner::check_plan;
use rule::{ROW_CELLS, Refusal};

// The degrees that a bank can have: 0, and one for each cell of its row.
const DEGREES: usize = ROW_CELLS + 1;

// The largest over i of the smaller of i and one plus the degree of the i-th bank, the highest degree first: one plus the
// highest degree that so many banks have or pass. Banks of the same degree need no order.
fn bound_by_degrees(degrees: &[u16], banks: u16) -> u16
    requires { FewEach degrees.now banks }
    ensures { Above (cells_from degrees.now banks) result }
{
    let cells = count_cells(degrees, banks);
    let mut high: u16 = 0;
    for d in (0..DEGREES).rev() {
        high += cells[d];
        let most = d + 1;
        if most <= usize::from(high) {
            return most as u16;
        }
    }
    0
}

// How many waves the plan has at most, or the refusal of the first no.
pub fn wave_bound(plan: PlanMemory) -> Result<u16, Refusal>
    ensures number { number_in result ≡ plan_number (slices_in plan.entry) plan.entry.tally }
    ensures bound { value_or result 0 ≡ bound_of (slices_in plan.entry) plan.entry.tally }
{
    check_plan(plan)?;
    Ok(bound_by_degrees(plan.degrees, plan.tally.banks))
}
