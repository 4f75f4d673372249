// The wave of one bank of a small plan, read straight off the rule: the search is lent neither the kept waves nor Counts.
#![tactic(auto)]

ghost use Rattle.memory.specs.Lent.{slices_in};
ghost use Rattle.memory.specs.Plan.{graph_in};
ghost use Rattle.std.specs.Prelude.{◌≡◌, ℕ, ◌≤◌, ◌<◌, get_or, IfOk};
ghost use Rattle.rule.specs.Refusals.{number_in};
ghost use Rattle.rule.specs.Wave.{wave};
ghost use Rattle.memory.specs.inner.Test.{Lowest};
ghost use Rattle.planner.specs.inner.Held.{PlanIn};
ghost use Rattle.planner.specs.Calls.{wave_in};
ghost use Rattle.direct_rule.specs.Calls.{direct_number, rule_wave_of};
ghost use Rattle.direct_rule.specs.inner.Search.{read_in, Readable};

use memory::{PlanMemory, is_earlier};
use planner::check_plan;
use rule::{Bank, COUNT_CELLS, ROW_CELLS, Refusal, Wave};

// The most banks of a plan that is read so. Each chain of ever earlier neighbours is walked by itself, and in a complete
// plan each bank more doubles their number.
const MOST_READ: u16 = 16;

// The lowest wave that no bank holds. One of the 24 is free.
fn first_free(held: &[u16; COUNT_CELLS]) -> Wave
    requires { (w : ℕ) × (w < 24) × Lowest (λ c. get_or held.now c 0) w }
    ensures { Lowest (λ c. get_or held.now c 0) result.0 }
{
    for (c, banks) in held.iter().enumerate() {
        if *banks == 0 {
            return Wave(c as u16);
        }
    }
    unreachable!()
}

// The wave of bank b: the lowest that no earlier neighbour has. By parts: the search is lent neither the kept waves nor Counts.
#[cycle(lowest_free_wave_wave_of_bank)]
fn wave_of_bank(neighbours: &[u16], degrees: &[u16], ranks: &[u16], banks: u16, b: Bank) -> Wave
    requires { Readable neighbours.now degrees.now ranks.now banks b.0 }
    ensures { result.0 ≡ wave (read_in banks neighbours.now ranks.now) b.0 }
{
    lowest_free_wave(neighbours, degrees, ranks, banks, b)
}

// Looks up the wave of each earlier neighbour of b, which is found in the same manner, and takes the lowest one free.
#[cycle(lowest_free_wave_wave_of_bank)]
fn lowest_free_wave(neighbours: &[u16], degrees: &[u16], ranks: &[u16], banks: u16, b: Bank) -> Wave
    requires { Readable neighbours.now degrees.now ranks.now banks b.0 }
    ensures { result.0 ≡ wave (read_in banks neighbours.now ranks.now) b.0 }
{
    let at = usize::from(b.0);
    let start = at * ROW_CELLS;
    let degree = usize::from(degrees[at]);
    let mut held = [0u16; COUNT_CELLS];
    // By index: what is held counts the cells of the row that are looked at.
    for i in 0..degree {
        let v = Bank(neighbours[start + i]);
        let sooner = is_earlier(degrees, ranks, v, b);
        if sooner {
            let w = wave_of_bank(neighbours, degrees, ranks, banks, v);
            held[usize::from(w.0)] += 1;
        }
    }
    first_free(&held)
}

// Questions 3 to 5, whether the plan is small, and question 7.
fn check_small(plan: PlanMemory, b: Bank) -> Result<(), Refusal>
    ensures number { number_in result ≡ direct_number b.0 (slices_in plan.entry) plan.entry.tally }
    ensures plan { IfOk result (λ _. PlanIn (slices_in plan.entry) plan.entry.tally × (b.0 < plan.entry.tally.banks)) }
    ensures few { IfOk result (λ _. plan.entry.tally.banks ≤ 16) }
{
    check_plan(plan)?;
    let banks = plan.tally.banks;
    let bank = b.0;
    if MOST_READ < banks {
        return Err(Refusal::LargePlan);
    }
    if banks <= bank {
        return Err(Refusal::FarBank);
    }
    Ok(())
}

// The wave of bank b by the rule, in memory that holds a small plan. The layers above call it where they know that.
pub fn rule_wave_held(plan: PlanMemory, b: Bank) -> Wave
    requires plan { PlanIn (slices_in plan) plan.tally × (b.0 < plan.tally.banks) }
    requires few { plan.tally.banks ≤ 16 }
    ensures { result.0 ≡ wave (graph_in plan.entry.tally.banks (slices_in plan.entry)) b.0 }
{
    wave_of_bank(
        plan.neighbours,
        plan.degrees,
        plan.ranks,
        plan.tally.banks,
        b,
    )
}

// The wave of bank b by the rule, from rows, degrees and ranks alone, or the refusal of the first no.
pub fn wave_by_rule(plan: PlanMemory, b: Bank) -> Result<Wave, Refusal>
    ensures number { number_in result ≡ direct_number b.0 (slices_in plan.entry) plan.entry.tally }
    ensures wave { wave_in result ≡ rule_wave_of b.0 (slices_in plan.entry) plan.entry.tally }
{
    check_small(plan, b)?;
    Ok(rule_wave_held(plan, b))
}
