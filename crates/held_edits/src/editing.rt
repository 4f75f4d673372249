// The edit of one clash in memory that holds a plan, and its questions 7 to 11.
ghost use Rattle.std.specs.Prelude.{◌≡◌, ℕ};
ghost use Rattle.rule.specs.Lists.{memb};
ghost use Rattle.rule.specs.Graph.{Graph};
ghost use Rattle.rule.specs.Refusals.{number_in, number_of};
ghost use Rattle.rule.specs.declared.Kind.TheVariants.{Adding, Striking};
ghost use Rattle.memory.specs.Plan.{PlanOf};
ghost use Rattle.memory.specs.Memory.{Ready};
ghost use Rattle.memory.specs.Lent.{given, slices_in};
ghost use Rattle.queue.specs.Queue.{Idle};
ghost use Rattle.planner.specs.Calls.{no_edit, edit_number};
ghost use Rattle.planner.specs.inner.Held.{clash_number, HoldsPlan, EditMade};

use edits::make_edit;
use memory::{PlanMemory, Tally};
use planner::{Answer, Edited, clashes_held};
use queue::WORDS;
use queue_places::reset;
use rule::{Bank, Kind, MOST_CLASHES, Refusal};

// Questions 9 and 11 of an add.
fn add_number(there: bool, degree_a: u16, degree_b: u16) -> Result<(), Refusal>
    ensures { number_in result ≡ clash_number Adding there degree_a degree_b }
{
    if there {
        return Err(Refusal::ClashThere);
    }
    if MOST_CLASHES <= degree_a || MOST_CLASHES <= degree_b {
        return Err(Refusal::ManyClashes);
    }
    Ok(())
}

// Question 10 of a strike.
fn strike_number(there: bool) -> Result<(), Refusal>
    ensures { (da db : ℕ) → number_in result ≡ clash_number Striking there da db }
{
    if !there {
        return Err(Refusal::NoClash);
    }
    Ok(())
}

// Questions 9 and 11 of an add, 10 of a strike, of two different banks. `row` has the clashes of a.
fn clash_number(
    kind: Kind,
    row: &[u16],
    b: Bank,
    degree_a: u16,
    degree_b: u16,
) -> Result<(), Refusal>
    ensures { number_in result ≡ clash_number kind (memb b.0 row.now) degree_a degree_b }
{
    let there = row.contains(&b.0);
    match kind {
        Kind::Adding => add_number(there, degree_a, degree_b),
        Kind::Striking => strike_number(there),
    }
}

// Questions 7 to 11 of an edit: the refusal of the first no.
pub fn edit_number(kind: Kind, plan: PlanMemory, a: Bank, b: Bank) -> Result<(), Refusal>
    requires { (G : Graph) × PlanOf G (slices_in plan) plan.tally }
    ensures { (G : Graph)
        → PlanOf G (slices_in plan.entry) plan.entry.tally
        → number_in result ≡ edit_number kind G a.0 b.0 }
{
    if plan.tally.banks <= a.0 || plan.tally.banks <= b.0 {
        return Err(Refusal::FarBank);
    }
    if a == b {
        return Err(Refusal::SameBank);
    }
    let row = clashes_held(plan, a);
    let at_a = usize::from(a.0);
    let at_b = usize::from(b.0);
    clash_number(kind, row, b, plan.degrees[at_a], plan.degrees[at_b])
}

// A refused edit: the refusal's number, counts 0, the tally as it was.
pub fn refuse(refusal: Refusal, tally: Tally) -> Edited
    ensures { (result.answer ≡ no_edit (number_of refusal)) × (result.tally ≡ tally) }
{
    Edited {
        answer: Answer {
            number: u16::from(refusal),
            moved: 0,
            trail: 0,
        },
        tally,
    }
}

// Adds or strikes the clash of a and b in memory that holds a plan, or refuses with 4 to 8. The layers above call it where they know that, so that
// question 5 is not asked again at each row.
pub fn edit_held(
    kind: Kind,
    neighbours: &mut [u16],
    degrees: &mut [u16],
    waves: &mut [u16],
    counts: &mut [u16],
    ranks: &[u16],
    trail: &mut [u16],
    moved: &mut [u16],
    queue: &mut [u64; WORDS],
    tally: Tally,
    a: Bank,
    b: Bank,
) -> Edited
    requires holds_plan { HoldsPlan (given neighbours.old degrees.old waves.old counts.old ranks.now trail.old moved.old tally) }
    requires idle { Idle tally.banks ranks.now queue.old }
    ensures edit_made { (G : Graph)
        → Ready G (given neighbours.old degrees.old waves.old counts.old ranks.now trail.old moved.old tally)
        → EditMade kind G a.0 b.0
        (given neighbours.old degrees.old waves.old counts.old ranks.now trail.old moved.old tally) result
        (given neighbours.new degrees.new waves.new counts.new ranks.now trail.new moved.new result.tally) }
    ensures idle_2 { Idle tally.banks ranks.now queue.new }
{
    let plan = PlanMemory {
        neighbours,
        degrees,
        waves,
        counts,
        ranks,
        tally,
    };
    if let Err(refusal) = edit_number(kind, plan, a, b) {
        return refuse(refusal, tally);
    }
    let done = make_edit(
        kind, neighbours, degrees, waves, counts, ranks, trail, moved, queue, tally, a, b,
    );
    Edited {
        answer: Answer {
            number: 0,
            moved: done.moved,
            trail: done.trail,
        },
        tally: done.tally,
    }
}

// The same with a queue of its own, where one edit is made.
pub fn edit_alone(
    kind: Kind,
    neighbours: &mut [u16],
    degrees: &mut [u16],
    waves: &mut [u16],
    counts: &mut [u16],
    ranks: &[u16],
    trail: &mut [u16],
    moved: &mut [u16],
    tally: Tally,
    a: Bank,
    b: Bank,
) -> Edited
    requires { HoldsPlan (given neighbours.old degrees.old waves.old counts.old ranks.now trail.old moved.old tally) }
    ensures { (G : Graph)
        → Ready G (given neighbours.old degrees.old waves.old counts.old ranks.now trail.old moved.old tally)
        → EditMade kind G a.0 b.0
        (given neighbours.old degrees.old waves.old counts.old ranks.now trail.old moved.old tally) result
        (given neighbours.new degrees.new waves.new counts.new ranks.now trail.new moved.new result.tally) }
{
    let mut queue = [0u64; WORDS];
    reset(&mut queue);
    edit_held(
        kind, neighbours, degrees, waves, counts, ranks, trail, moved, &mut queue, tally, a, b,
    )
}
