// The questions about lent memory: 3, 4, 5 and 7. Each function gives the refusal of the first no.
ghost use Rattle.memory.specs.Lent.{slices_in};
ghost use Rattle.memory.specs.Memory.{memory_of};
ghost use Rattle.rule.specs.Refusals.{number_in};
ghost use Rattle.std.specs.Prelude.{◌≡◌, ◌<◌, IfOk};
ghost use Rattle.planner.specs.Calls.{plan_number, bank_number, memory_number};
ghost use Rattle.planner.specs.inner.Held.{PlanIn, ReadyIn};

use memory::{PlanMemory, long_enough};
use plan_test::holds_plan;
use rule::{Bank, MOST_BANKS, Refusal};

// Questions 3 to 5 of a call that only reads.
pub fn check_plan(plan: PlanMemory) -> Result<(), Refusal>
    ensures number { number_in result ≡ plan_number (slices_in plan.entry) plan.entry.tally }
    ensures plan { IfOk result (λ _. PlanIn (slices_in plan.entry) plan.entry.tally) }
{
    let banks = plan.tally.banks;
    if MOST_BANKS < banks as usize {
        return Err(Refusal::ManyBanks);
    }
    if !long_enough(plan, banks) {
        return Err(Refusal::ShortMemory);
    }
    if !holds_plan(plan) {
        return Err(Refusal::NoPlan);
    }
    Ok(())
}

// Questions 3 to 5 and 7 of a call that reads one bank.
pub fn check_bank(plan: PlanMemory, b: Bank) -> Result<(), Refusal>
    ensures number { number_in result ≡ bank_number b.0 (slices_in plan.entry) plan.entry.tally }
    ensures plan { IfOk result (λ _. PlanIn (slices_in plan.entry) plan.entry.tally × (b.0 < plan.entry.tally.banks)) }
{
    check_plan(plan)?;
    if plan.tally.banks <= b.0 {
        return Err(Refusal::FarBank);
    }
    Ok(())
}

// Questions 3 to 5 of an edit, which uses the trail and moved slices too.
pub fn check_memory(plan: PlanMemory, trail: &[u16], moved: &[u16]) -> Result<(), Refusal>
    ensures number { number_in result ≡ memory_number (memory_of (slices_in plan.entry) trail.now moved.now plan.entry.tally) }
    ensures ready { IfOk result (λ _. ReadyIn (memory_of (slices_in plan.entry) trail.now moved.now plan.entry.tally)) }
{
    let n = plan.tally.banks as usize;
    if MOST_BANKS < n {
        return Err(Refusal::ManyBanks);
    }
    if trail.len() < n {
        return Err(Refusal::ShortMemory);
    }
    if moved.len() < n {
        return Err(Refusal::ShortMemory);
    }
    check_plan(plan)
}
