// The entries of a list or a journal, in memory that holds a plan: edits of one clash, and ranks before them.
ghost use Rattle.std.specs.Prelude.{false, ◌≡◌, ◌≤◌, length};
ghost use Rattle.rule.specs.Graph.{Graph};
ghost use Rattle.memory.specs.Memory.{Ready};
ghost use Rattle.memory.specs.Lent.{given};
ghost use Rattle.queue.specs.Queue.{Idle, Unranked};
ghost use Rattle.planner.specs.States.{begun_by};
ghost use Rattle.planner.specs.inner.Held.{HoldsPlan, EditMade, RankDone, Enterable, Enters};

use held_edits::{edit_held, refuse};
use memory::Tally;
use planner::{Answer, Edited};
use queue::WORDS;
use queue_places::place_by_rank;
use rule::{Bank, Entry, Kind, Refusal};

// Whether an edit has come, once this entry has.
pub fn begun_by(entry: Entry, begun: bool) -> bool
    ensures { result ≡ begun_by entry begun }
{
    begun || matches!(entry, Entry::Clash(..))
}

// Sets the rank of b, or refuses with 18 where an edit has come, or with 4.
fn rank_held(ranks: &mut [u16], tally: Tally, begun: bool, b: Bank, rank: u16) -> Edited
    requires { tally.banks ≤ length ranks.old }
    ensures { RankDone begun b.0 rank tally ranks.old ranks.new result }
{
    if begun {
        return refuse(Refusal::LateRank, tally);
    }
    if tally.banks <= b.0 {
        return refuse(Refusal::FarBank, tally);
    }
    let at = usize::from(b.0);
    ranks[at] = rank;
    Edited {
        answer: Answer {
            number: 0,
            moved: 0,
            trail: 0,
        },
        tally,
    }
}

// Makes an edit, for which the queue has to know the ranks.
fn edit_placed(
    kind: Kind,
    neighbours: &mut [u16],
    degrees: &mut [u16],
    waves: &mut [u16],
    counts: &mut [u16],
    ranks: &[u16],
    trail: &mut [u16],
    moved: &mut [u16],
    queue: &mut [u64; WORDS],
    tally: Tally,
    a: Bank,
    b: Bank,
) -> Edited
    requires holds_plan { HoldsPlan (given neighbours.old degrees.old waves.old counts.old ranks.now trail.old moved.old tally) }
    requires idle { Idle tally.banks ranks.now queue.old }
    ensures edit_made { (G : Graph)
        → Ready G (given neighbours.old degrees.old waves.old counts.old ranks.now trail.old moved.old tally)
        → EditMade kind G a.0 b.0
        (given neighbours.old degrees.old waves.old counts.old ranks.now trail.old moved.old tally) result
        (given neighbours.new degrees.new waves.new counts.new ranks.now trail.new moved.new result.tally) }
    ensures idle_2 { Idle tally.banks ranks.now queue.new }
{
    place_by_rank(ranks, queue, tally.banks);
    edit_held(
        kind, neighbours, degrees, waves, counts, ranks, trail, moved, queue, tally, a, b,
    )
}

// Makes the edit of an entry or sets its rank, or refuses it. The layers above call it where they know that memory holds a plan, and that there is no
// clash before the first edit.
pub fn enter_held(
    neighbours: &mut [u16],
    degrees: &mut [u16],
    waves: &mut [u16],
    counts: &mut [u16],
    ranks: &mut [u16],
    trail: &mut [u16],
    moved: &mut [u16],
    queue: &mut [u64; WORDS],
    tally: Tally,
    begun: bool,
    entry: Entry,
) -> Edited
    requires enterable { Enterable begun entry (given neighbours.old degrees.old waves.old counts.old ranks.old trail.old moved.old tally) }
    requires idle { Idle tally.banks ranks.old queue.old }
    requires unranked { begun ≡ false → Unranked queue.old }
    ensures enters { Enters begun entry
        (given neighbours.old degrees.old waves.old counts.old ranks.old trail.old moved.old tally) result
        (given neighbours.new degrees.new waves.new counts.new ranks.new trail.new moved.new result.tally) }
    ensures idle_2 { Idle tally.banks ranks.new queue.new }
    ensures unranked_2 { begun_by entry begun ≡ false → Unranked queue.new }
{
    match entry {
        Entry::Clash(kind, a, b) => edit_placed(
            kind, neighbours, degrees, waves, counts, ranks, trail, moved, queue, tally, a, b,
        ),
        Entry::Rank(b, rank) => rank_held(ranks, tally, begun, b, rank),
    }
}
