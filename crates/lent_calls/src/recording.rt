// The calls that make an edit and record it, as a caller makes them: the tally is lent, and left as the call leaves it.
ghost use Rattle.std.specs.Prelude.{◌≡◌};
ghost use Rattle.rule.specs.declared.Kind.TheVariants.{Adding, Striking};
ghost use Rattle.memory.specs.Lent.{given};
ghost use Rattle.journal.specs.Calls.{record_result, recorded};

use journal::Recorded;
use memory::Tally;
use recorded_edits::record_core;
use rule::{Bank, Kind};

// Adds the clash of a and b to the plan in memory and records it in the journal, whose first `size` bytes are written; or changes nothing and
// answers the number of the first no with counts and length 0.
pub fn add_recorded(
    neighbours: &mut [u16],
    degrees: &mut [u16],
    waves: &mut [u16],
    counts: &mut [u16],
    ranks: &[u16],
    trail: &mut [u16],
    moved: &mut [u16],
    tally: &mut Tally,
    a: Bank,
    b: Bank,
    journal: &mut [u8],
    size: usize,
) -> Recorded
    ensures { record_result result (given neighbours.new degrees.new waves.new counts.new ranks.now trail.new moved.new tally.new) journal.new
        ≡ recorded Adding a.0 b.0 (given neighbours.old degrees.old waves.old counts.old ranks.now trail.old moved.old tally.old) size journal.old }
{
    let added = record_core(
        Kind::Adding,
        neighbours,
        degrees,
        waves,
        counts,
        ranks,
        trail,
        moved,
        *tally,
        a,
        b,
        journal,
        size,
    );
    *tally = added.tally;
    added.answer
}

// Strikes the clash of a and b from the plan in memory and records it, or changes nothing, like add_recorded.
pub fn strike_recorded(
    neighbours: &mut [u16],
    degrees: &mut [u16],
    waves: &mut [u16],
    counts: &mut [u16],
    ranks: &[u16],
    trail: &mut [u16],
    moved: &mut [u16],
    tally: &mut Tally,
    a: Bank,
    b: Bank,
    journal: &mut [u8],
    size: usize,
) -> Recorded
    ensures { record_result result (given neighbours.new degrees.new waves.new counts.new ranks.now trail.new moved.new tally.new) journal.new
        ≡ recorded Striking a.0 b.0 (given neighbours.old degrees.old waves.old counts.old ranks.now trail.old moved.old tally.old) size journal.old }
{
    let struck = record_core(
        Kind::Striking,
        neighbours,
        degrees,
        waves,
        counts,
        ranks,
        trail,
        moved,
        *tally,
        a,
        b,
        journal,
        size,
    );
    *tally = struck.tally;
    struck.answer
}
