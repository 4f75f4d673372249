// An edit under a cap, in memory that holds a plan: it is made, and unmade where the rule then needs more waves than the cap. Its trail and moved list are
// written to memory of its own first, so that a refused edit leaves the lent ones as they were.
ghost use Rattle.std.specs.Prelude.{true, ◌≡◌, ◌≤◌, length};
ghost use Rattle.rule.specs.Graph.{Graph};
ghost use Rattle.rule.specs.Reach.{inverse};
ghost use Rattle.rule.specs.Refusals.{number_in};
ghost use Rattle.memory.specs.Memory.{Ready};
ghost use Rattle.memory.specs.Lent.{given};
ghost use Rattle.planner.specs.Calls.{edit_result};
ghost use Rattle.planner.specs.inner.Held.{HoldsPlan, EditMade};
ghost use Rattle.capped_edits.specs.inner.Within.{late_number, within_of, Tried, Kept};

use held_edits::{edit_alone, refuse};
use memory::{Tally, put_front};
use planner::{Answer, Edited};
use rule::{Bank, Kind, MOST_BANKS, MOST_WAVES, Refusal};

// The edit that takes one of this kind back.
fn opposite(kind: Kind) -> Kind
    ensures { result ≡ inverse kind }
{
    match kind {
        Kind::Adding => Kind::Striking,
        Kind::Striking => Kind::Adding,
    }
}

// Takes back an edit of this kind that was made, in memory that holds the plan after it.
fn take_back(
    kind: Kind,
    neighbours: &mut [u16],
    degrees: &mut [u16],
    waves: &mut [u16],
    counts: &mut [u16],
    ranks: &[u16],
    trail: &mut [u16],
    moved: &mut [u16],
    tally: Tally,
    a: Bank,
    b: Bank,
) -> Edited
    requires { HoldsPlan (given neighbours.old degrees.old waves.old counts.old ranks.now trail.old moved.old tally) }
    ensures { (G : Graph)
        → Ready G (given neighbours.old degrees.old waves.old counts.old ranks.now trail.old moved.old tally)
        → EditMade (inverse kind) G a.0 b.0
        (given neighbours.old degrees.old waves.old counts.old ranks.now trail.old moved.old tally) result
        (given neighbours.new degrees.new waves.new counts.new ranks.now trail.new moved.new result.tally) }
{
    edit_alone(
        opposite(kind),
        neighbours,
        degrees,
        waves,
        counts,
        ranks,
        trail,
        moved,
        tally,
        a,
        b,
    )
}

// What is asked of a made edit: whether it led to no more waves than the cap, then the last question.
fn late_number(waves: u16, cap: u16, last: Result<(), Refusal>) -> Result<(), Refusal>
    ensures { number_in result ≡ late_number waves cap (number_in last) }
{
    if cap < waves {
        return Err(Refusal::OverCap);
    }
    last
}

// Whether an edit is never refused once it is made: no plan passes a cap of 24.
fn unlimited(cap: u16, last: Result<(), Refusal>) -> bool
    ensures { result ≡ true → (24 ≤ cap) × (number_in last ≡ 0) }
{
    MOST_WAVES <= cap && last.is_ok()
}

// Makes the edit, and unmakes it where it is then refused. Trail and moved are working space, and keep what the edit wrote, also where it is unmade.
fn try_edit(
    kind: Kind,
    neighbours: &mut [u16],
    degrees: &mut [u16],
    waves: &mut [u16],
    counts: &mut [u16],
    ranks: &[u16],
    trail: &mut [u16],
    moved: &mut [u16],
    tally: Tally,
    a: Bank,
    b: Bank,
    last: Result<(), Refusal>,
) -> Edited
    requires { HoldsPlan (given neighbours.old degrees.old waves.old counts.old ranks.now trail.old moved.old tally) }
    ensures { (G : Graph)
        → Ready G (given neighbours.old degrees.old waves.old counts.old ranks.now trail.old moved.old tally)
        → Tried kind G a.0 b.0 (number_in last)
        (given neighbours.old degrees.old waves.old counts.old ranks.now trail.old moved.old tally) result
        (given neighbours.new degrees.new waves.new counts.new ranks.now trail.new moved.new result.tally) }
{
    let made = edit_alone(
        kind, neighbours, degrees, waves, counts, ranks, trail, moved, tally, a, b,
    );
    if made.answer.number != 0 {
        return made;
    }
    let Err(refusal) = late_number(made.tally.waves, tally.cap, last) else {
        return made;
    };
    take_back(
        kind, neighbours, degrees, waves, counts, ranks, trail, moved, made.tally, a, b,
    );
    refuse(refusal, tally)
}

// Puts the first k cells at the front of a slice where the edit got no number. Answers how many were put.
fn put_kept(slice: &mut [u16], cells: &[u16], number: u16, k: u16) -> u16
    requires { number ≡ 0 → (k ≤ length cells.now) × (k ≤ length slice.old) }
    ensures { Kept number k cells.now slice.old result slice.new }
{
    if number != 0 {
        return 0;
    }
    put_front(slice, &cells[..usize::from(k)]);
    k
}

// The edit with a trail and a moved list of its own, which are put into the lent slices once it is accepted.
fn edit_apart(
    kind: Kind,
    neighbours: &mut [u16],
    degrees: &mut [u16],
    waves: &mut [u16],
    counts: &mut [u16],
    ranks: &[u16],
    trail: &mut [u16],
    moved: &mut [u16],
    tally: Tally,
    a: Bank,
    b: Bank,
    last: Result<(), Refusal>,
) -> Edited
    requires { HoldsPlan (given neighbours.old degrees.old waves.old counts.old ranks.now trail.old moved.old tally) }
    ensures { (G : Graph)
        → Ready G (given neighbours.old degrees.old waves.old counts.old ranks.now trail.old moved.old tally)
        → edit_result result.answer (given neighbours.new degrees.new waves.new counts.new ranks.now trail.new moved.new result.tally)
        ≡ within_of kind G a.0 b.0 (number_in last) (given neighbours.old degrees.old waves.old counts.old ranks.now trail.old moved.old tally) }
{
    let mut own_trail = [0u16; MOST_BANKS];
    let mut own_moved = [0u16; MOST_BANKS];
    let tried = try_edit(
        kind,
        neighbours,
        degrees,
        waves,
        counts,
        ranks,
        &mut own_trail,
        &mut own_moved,
        tally,
        a,
        b,
        last,
    );
    let number = tried.answer.number;
    let taken = put_kept(trail, &own_trail, number, tried.answer.trail);
    let changed = put_kept(moved, &own_moved, number, tried.answer.moved);
    Edited {
        answer: Answer {
            number,
            moved: changed,
            trail: taken,
        },
        tally: tried.tally,
    }
}

// An edit in memory that holds a plan, refused with 4 to 8, with 20, or else with the refusal in `last`. Under a cap of 24, which no plan passes,
// nothing is unmade.
pub fn edit_within(
    kind: Kind,
    neighbours: &mut [u16],
    degrees: &mut [u16],
    waves: &mut [u16],
    counts: &mut [u16],
    ranks: &[u16],
    trail: &mut [u16],
    moved: &mut [u16],
    tally: Tally,
    a: Bank,
    b: Bank,
    last: Result<(), Refusal>,
) -> Edited
    requires { HoldsPlan (given neighbours.old degrees.old waves.old counts.old ranks.now trail.old moved.old tally) }
    ensures { (G : Graph)
        → Ready G (given neighbours.old degrees.old waves.old counts.old ranks.now trail.old moved.old tally)
        → edit_result result.answer (given neighbours.new degrees.new waves.new counts.new ranks.now trail.new moved.new result.tally)
        ≡ within_of kind G a.0 b.0 (number_in last) (given neighbours.old degrees.old waves.old counts.old ranks.now trail.old moved.old tally) }
{
    if unlimited(tally.cap, last) {
        return edit_alone(
            kind, neighbours, degrees, waves, counts, ranks, trail, moved, tally, a, b,
        );
    }
    edit_apart(
        kind, neighbours, degrees, waves, counts, ranks, trail, moved, tally, a, b, last,
    )
}
