// Crews: the step in which each bank is served with so many couriers, and how few couriers end in time.
#![tactic(auto)]

mod choosing;
mod serving;

ghost use Rattle.memory.specs.Lent.{slices_in};
ghost use Rattle.std.specs.Prelude.{◌≡◌, IfOk};
ghost use Rattle.rule.specs.Refusals.{number_in};
ghost use Rattle.crews.specs.Calls.{crew_fits, crew_number, crewed, crew_result, crew_steps, least_found, least_of};
ghost use Rattle.crews.specs.inner.Serving.{CrewIn};

use cell_counts::count_cells;
use choosing::find_crew;
use memory::PlanMemory;
use planner::check_plan;
use rule::{MOST_BANKS, Refusal};
use serving::serve_day;

// The most couriers.
const MOST_COURIERS: u16 = 64;

// The highest limit of steps.
const MOST_STEPS: u16 = 1024;

// Whether there are 1 to 64 couriers.
fn crew_fits(couriers: u16) -> bool
    ensures { result ≡ crew_fits couriers }
{
    (1..=MOST_COURIERS).contains(&couriers)
}

// Questions 3 to 5, of which 4 also asks for n cells of steps, and whether there are 1 to 64 couriers.
fn check_crew(plan: PlanMemory, couriers: u16, steps: &[u16]) -> Result<(), Refusal>
    ensures number { number_in result ≡ crew_number couriers (slices_in plan.entry) plan.entry.tally steps.now }
    ensures crew { IfOk result (λ _. CrewIn couriers (slices_in plan.entry) plan.entry.tally steps.now) }
{
    let n = usize::from(plan.tally.banks);
    if MOST_BANKS < n {
        return Err(Refusal::ManyBanks);
    }
    if steps.len() < n {
        return Err(Refusal::ShortMemory);
    }
    check_plan(plan)?;
    if !crew_fits(couriers) {
        return Err(Refusal::WrongCrew);
    }
    Ok(())
}

// Stores the step in which each bank is served, from 1, and answers how many steps there are; or changes nothing and gives the refusal of the first no.
pub fn crew_steps(plan: PlanMemory, couriers: u16, steps: &mut [u16]) -> Result<u16, Refusal>
    ensures { crew_result (crewed result) steps.new
        ≡ crew_steps couriers (slices_in plan.entry) plan.entry.tally steps.old }
{
    check_crew(plan, couriers, steps)?;
    Ok(serve_day(plan.waves, steps, plan.tally.banks, couriers))
}

// The least number of couriers with which the day ends within the limit, or the refusal of the first no.
pub fn least_crew(plan: PlanMemory, limit: u16) -> Result<u16, Refusal>
    ensures { least_found result ≡ least_of limit (slices_in plan.entry) plan.entry.tally }
{
    check_plan(plan)?;
    if MOST_STEPS < limit {
        return Err(Refusal::WrongCrew);
    }
    let sizes = count_cells(plan.waves, plan.tally.banks);
    let couriers = find_crew(&sizes, limit);
    if couriers == 0 {
        return Err(Refusal::NoCrew);
    }
    Ok(couriers)
}
