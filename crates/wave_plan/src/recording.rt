// The edits that are recorded. Their results are the moved count, the trail count and the journal's new length.
ghost use Rattle.std.specs.Prelude.{◌≡◌};
ghost use Rattle.rule.specs.declared.Kind.TheVariants.{Adding, Striking};
ghost use Rattle.c_cells.specs.Lent.{cells_given};
ghost use Rattle.c_calls.specs.Calls.{record_answered, record_call};

use c_calls::record_in;
use rule::Kind;

// Adds the clash of a and b and records it.
#[unsafe(no_mangle)]
pub extern "C" fn wave_plan_add_recorded(
    neighbours: &mut [u16],
    degrees: &mut [u16],
    waves: &mut [u16],
    counts: &mut [u16],
    ranks: &[u16],
    trail: &mut [u16],
    moved: &mut [u16],
    tally: &mut [u16],
    journal: &mut [u8],
    res: &mut [u16],
    a: u16,
    b: u16,
    length: usize,
) -> u16
    ensures { record_answered result (cells_given neighbours.new degrees.new waves.new counts.new ranks.now trail.new moved.new tally.new res.new)
        journal.new
        ≡ record_call Adding a b (cells_given neighbours.old degrees.old waves.old counts.old ranks.now trail.old moved.old tally.old res.old)
        length journal.old }
{
    record_in(
        Kind::Adding,
        neighbours,
        degrees,
        waves,
        counts,
        ranks,
        trail,
        moved,
        tally,
        journal,
        res,
        a,
        b,
        length,
    )
}

// Strikes the clash of a and b and records it.
#[unsafe(no_mangle)]
pub extern "C" fn wave_plan_strike_recorded(
    neighbours: &mut [u16],
    degrees: &mut [u16],
    waves: &mut [u16],
    counts: &mut [u16],
    ranks: &[u16],
    trail: &mut [u16],
    moved: &mut [u16],
    tally: &mut [u16],
    journal: &mut [u8],
    res: &mut [u16],
    a: u16,
    b: u16,
    length: usize,
) -> u16
    ensures { record_answered result (cells_given neighbours.new degrees.new waves.new counts.new ranks.now trail.new moved.new tally.new res.new)
        journal.new
        ≡ record_call Striking a b (cells_given neighbours.old degrees.old waves.old counts.old ranks.now trail.old moved.old tally.old res.old)
        length journal.old }
{
    record_in(
        Kind::Striking,
        neighbours,
        degrees,
        waves,
        counts,
        ranks,
        trail,
        moved,
        tally,
        journal,
        res,
        a,
        b,
        length,
    )
}
