// The call set_cap with the tally by value.
ghost use Rattle.memory.specs.Lent.{slices_in};
ghost use Rattle.std.specs.Prelude.{◌≡◌};
ghost use Rattle.rule.specs.Refusals.{number_in, value_or};
ghost use Rattle.edit_calls.specs.Calls.{set_cap_number, cap_result, set_cap};
ghost use Rattle.edit_calls.specs.inner.Caps.{cap_number};

use memory::{PlanMemory, Tally};
use planner::check_plan;
use rule::{MOST_WAVES, Refusal};

// Whether the cap is from 1 to 24, and not below the waves in use.
fn cap_number(waves: u16, cap: u16) -> Result<(), Refusal>
    ensures { number_in result ≡ cap_number waves cap }
{
    if cap < 1 || MOST_WAVES < cap {
        return Err(Refusal::WrongCap);
    }
    if cap < waves {
        return Err(Refusal::OverCap);
    }
    Ok(())
}

// All questions of set_cap.
fn check_cap(plan: PlanMemory, cap: u16) -> Result<(), Refusal>
    ensures { number_in result ≡ set_cap_number cap (slices_in plan.entry) plan.entry.tally }
{
    check_plan(plan)?;
    cap_number(plan.tally.waves, cap)
}

// The tally with the cap set, or the refusal of the first no.
pub fn set_cap_core(plan: PlanMemory, cap: u16) -> Result<Tally, Refusal>
    ensures { cap_result (number_in result) (value_or result plan.entry.tally) ≡ set_cap cap (slices_in plan.entry) plan.entry.tally }
{
    check_cap(plan, cap)?;
    Ok(Tally { cap, ..plan.tally })
}
