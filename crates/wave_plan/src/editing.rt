// The edits of one clash, whose results are the moved count and the trail count; and the cap.
ghost use Rattle.memory.specs.Plan.{slices_of};
ghost use Rattle.std.specs.Prelude.{◌≡◌};
ghost use Rattle.rule.specs.declared.Kind.TheVariants.{Adding, Striking};
ghost use Rattle.c_cells.specs.CellMemory.{answered};
ghost use Rattle.c_cells.specs.Lent.{cells_given};
ghost use Rattle.c_calls.specs.Calls.{edit_call, cap_answered, cap_call};

use c_calls::{edit_in, set_cap_in};
use rule::Kind;

// Adds the clash of a and b.
#[unsafe(no_mangle)]
pub extern "C" fn wave_plan_add(
    neighbours: &mut [u16],
    degrees: &mut [u16],
    waves: &mut [u16],
    counts: &mut [u16],
    ranks: &[u16],
    trail: &mut [u16],
    moved: &mut [u16],
    tally: &mut [u16],
    res: &mut [u16],
    a: u16,
    b: u16,
) -> u16
    ensures { answered result (cells_given neighbours.new degrees.new waves.new counts.new ranks.now trail.new moved.new tally.new res.new)
        ≡ edit_call Adding a b (cells_given neighbours.old degrees.old waves.old counts.old ranks.now trail.old moved.old tally.old res.old) }
{
    edit_in(
        Kind::Adding,
        neighbours,
        degrees,
        waves,
        counts,
        ranks,
        trail,
        moved,
        tally,
        res,
        a,
        b,
    )
}

// Strikes the clash of a and b.
#[unsafe(no_mangle)]
pub extern "C" fn wave_plan_strike(
    neighbours: &mut [u16],
    degrees: &mut [u16],
    waves: &mut [u16],
    counts: &mut [u16],
    ranks: &[u16],
    trail: &mut [u16],
    moved: &mut [u16],
    tally: &mut [u16],
    res: &mut [u16],
    a: u16,
    b: u16,
) -> u16
    ensures { answered result (cells_given neighbours.new degrees.new waves.new counts.new ranks.now trail.new moved.new tally.new res.new)
        ≡ edit_call Striking a b (cells_given neighbours.old degrees.old waves.old counts.old ranks.now trail.old moved.old tally.old res.old) }
{
    edit_in(
        Kind::Striking,
        neighbours,
        degrees,
        waves,
        counts,
        ranks,
        trail,
        moved,
        tally,
        res,
        a,
        b,
    )
}

// Sets the most waves that edits may lead to.
#[unsafe(no_mangle)]
pub extern "C" fn wave_plan_set_cap(
    neighbours: &[u16],
    degrees: &[u16],
    waves: &[u16],
    counts: &[u16],
    ranks: &[u16],
    tally: &mut [u16],
    cap: u16,
) -> u16
    ensures { cap_answered result tally.new
        ≡ cap_call cap (slices_of neighbours.now degrees.now waves.now counts.now ranks.now) tally.old }
{
    set_cap_in(neighbours, degrees, waves, counts, ranks, tally, cap)
}
