// The call that starts a journal.
ghost use Rattle.std.specs.Prelude.{[], ◌∷◌, ◌≡◌, ◌≤◌, length};
ghost use Rattle.rule.specs.Graph.{Graph};
ghost use Rattle.memory.specs.Lent.{slices_in};
ghost use Rattle.memory.specs.Plan.{PlanOf};
ghost use Rattle.journal.specs.Calls.{rank_of, ranks_below, adds_of, adds_below, start_answered, start_result, started};
ghost use Rattle.journal.specs.inner.Adds.{rank_in, RoomFor, PutsEntries};

use journal_fields::{FIRST_BYTES, NUMBERED_BYTES, put_entry, put_first, space_number};
use memory::PlanMemory;
use planner::{check_plan, clashes_held};
use rule::{Bank, Entry, Kind, Refusal};

// How many of the first n ranks are other than 0.
fn count_ranks(ranks: &[u16], n: u16) -> usize
    requires { n ≤ length ranks.now }
    ensures { (result ≡ length (ranks_below (rank_in ranks.now) n)) × (result ≤ n) }
{
    ranks[..usize::from(n)]
        .iter()
        .filter(|rank| **rank != 0)
        .count()
}

// Writes an entry into a new journal after the first `done`, with its number, and answers how many stand there then.
fn put_new(journal: &mut [u8], done: usize, entry: Entry) -> usize
    requires { RoomFor (entry ∷ []) done journal.old }
    ensures { PutsEntries (entry ∷ []) done journal.old result journal.new }
{
    put_entry(
        journal,
        FIRST_BYTES + NUMBERED_BYTES * done,
        true,
        done + 1,
        entry,
    );
    done + 1
}

// Writes the rank of b, if it is other than 0.
fn put_rank(journal: &mut [u8], done: usize, b: Bank, rank: u16) -> usize
    requires { RoomFor (rank_of b.0 rank) done journal.old }
    ensures { PutsEntries (rank_of b.0 rank) done journal.old result journal.new }
{
    if rank == 0 {
        return done;
    }
    put_new(journal, done, Entry::Rank(b, rank))
}

// Writes the first n ranks that are other than 0, ascending by bank.
fn put_ranks(journal: &mut [u8], done: usize, ranks: &[u16], n: u16) -> usize
    requires { (n ≤ length ranks.now) × RoomFor (ranks_below (rank_in ranks.now) n) done journal.old }
    ensures { PutsEntries (ranks_below (rank_in ranks.now) n) done journal.old result journal.new }
{
    let mut next = done;
    for b in 0..n {
        next = put_rank(journal, next, Bank(b), ranks[usize::from(b)]);
    }
    next
}

// Writes the clash of a and b as an add, if b is larger.
fn put_add(journal: &mut [u8], done: usize, a: Bank, b: Bank) -> usize
    requires { RoomFor (adds_of a.0 (b.0 ∷ [])) done journal.old }
    ensures { PutsEntries (adds_of a.0 (b.0 ∷ [])) done journal.old result journal.new }
{
    if b <= a {
        return done;
    }
    put_new(journal, done, Entry::Clash(Kind::Adding, a, b))
}

// Writes the clashes of a with the larger of these banks as adds.
fn put_adds_of(journal: &mut [u8], done: usize, row: &[u16], a: Bank) -> usize
    requires { RoomFor (adds_of a.0 row.now) done journal.old }
    ensures { PutsEntries (adds_of a.0 row.now) done journal.old result journal.new }
{
    let mut next = done;
    for b in row {
        next = put_add(journal, next, a, Bank(*b));
    }
    next
}

// Writes the clashes of a plan as adds, the lowest pair first.
fn put_adds(journal: &mut [u8], done: usize, plan: PlanMemory) -> usize
    requires { (G : Graph) × PlanOf G (slices_in plan) plan.tally × RoomFor (adds_below G G.banks) done journal.old }
    ensures { (G : Graph)
        → PlanOf G (slices_in plan.entry) plan.entry.tally
        → RoomFor (adds_below G G.banks) done journal.old
        → PutsEntries (adds_below G G.banks) done journal.old result journal.new }
{
    let mut next = done;
    for a in 0..plan.tally.banks {
        next = put_adds_of(journal, next, clashes_held(plan, Bank(a)), Bank(a));
    }
    next
}

// Starts a journal: writes its first field, the ranks other than 0 and the clashes that are listed to the front of `journal`. Answers its length, at
// most 60,000, or changes nothing and gives the refusal of the first no.
pub fn start_journal(plan: PlanMemory, journal: &mut [u8]) -> Result<usize, Refusal>
    ensures { start_result (start_answered result) journal.new ≡ started (slices_in plan.entry) plan.entry.tally journal.old }
{
    check_plan(plan)?;
    // Each clash of the tally is one add.
    let entries = count_ranks(plan.ranks, plan.tally.banks) + usize::from(plan.tally.clashes);
    let size = FIRST_BYTES + NUMBERED_BYTES * entries;
    space_number(journal, size)?;
    put_first(journal, plan.tally.banks);
    let ranked = put_ranks(journal, 0, plan.ranks, plan.tally.banks);
    put_adds(journal, ranked, plan);
    Ok(size)
}
