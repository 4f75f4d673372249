// Opening a plan.
ghost use Rattle.memory.specs.Plan.{slices_of};
ghost use Rattle.std.specs.Prelude.{◌≡◌};
ghost use Rattle.c_calls.specs.Calls.{open_answered, open_call};

use c_cells::{put_tally, room, tally_in};
use opening::open_core;

// Opens a plan of `banks` banks with no clash.
pub fn open_in(
    neighbours: &mut [u16],
    degrees: &mut [u16],
    waves: &mut [u16],
    counts: &mut [u16],
    ranks: &mut [u16],
    tally: &mut [u16],
    banks: u16,
) -> u16
    ensures { open_answered result (slices_of neighbours.new degrees.new waves.new counts.new ranks.new) tally.new
        ≡ open_call banks (slices_of neighbours.old degrees.old waves.old counts.old ranks.old) tally.old }
{
    let short = room(tally.len(), 0, 0);
    if short != 0 {
        return short;
    }
    let t = tally_in(tally);
    match open_core(neighbours, degrees, waves, counts, ranks, banks, t) {
        Ok(after) => {
            put_tally(tally, after);
            0
        }
        Err(refusal) => u16::from(refusal),
    }
}
