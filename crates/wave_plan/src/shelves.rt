// The shelf: opening it, keeping a plan on it, and coming back to one.
ghost use Rattle.memory.specs.Plan.{slices_of};
ghost use Rattle.std.specs.Prelude.{◌≡◌};
ghost use Rattle.checkpoints.specs.Calls.{shelf_result, open_shelf};
ghost use Rattle.c_shelves.specs.Shelves.{keep_call, back_answered, come_back_call};

use c_shelves::{come_back_in, keep_in};
use checkpoints::open_shelf;

// Opens a shelf for plans of `banks` banks: nothing is kept on it.
#[unsafe(no_mangle)]
pub extern "C" fn wave_plan_open_shelf(shelf: &mut [u16], banks: u16) -> u16
    ensures { shelf_result result shelf.new ≡ open_shelf banks shelf.old }
{
    match open_shelf(shelf, banks) {
        Ok(()) => 0,
        Err(refusal) => u16::from(refusal),
    }
}

// Keeps the plan under a name.
#[unsafe(no_mangle)]
pub extern "C" fn wave_plan_keep(
    neighbours: &[u16],
    degrees: &[u16],
    waves: &[u16],
    counts: &[u16],
    ranks: &[u16],
    tally: &[u16],
    shelf: &mut [u16],
    name: &[u8],
) -> u16
    ensures { shelf_result result shelf.new
        ≡ keep_call name.now (slices_of neighbours.now degrees.now waves.now counts.now ranks.now) tally.now shelf.old }
{
    keep_in(
        neighbours, degrees, waves, counts, ranks, tally, shelf, name,
    )
}

// Comes back to the plan kept under a name. The result is the moved count.
#[unsafe(no_mangle)]
pub extern "C" fn wave_plan_come_back(
    neighbours: &mut [u16],
    degrees: &mut [u16],
    waves: &mut [u16],
    counts: &mut [u16],
    ranks: &mut [u16],
    moved: &mut [u16],
    tally: &mut [u16],
    shelf: &[u16],
    name: &[u8],
    res: &mut [u16],
) -> u16
    ensures { back_answered result (slices_of neighbours.new degrees.new waves.new counts.new ranks.new) moved.new tally.new res.new
        ≡ come_back_call name.now (slices_of neighbours.old degrees.old waves.old counts.old ranks.old) moved.old tally.old
        shelf.now res.old }
{
    come_back_in(
        neighbours, degrees, waves, counts, ranks, moved, tally, shelf, name, res,
    )
}
