// The call open as a caller makes it: the tally is lent, and left as the call leaves it.
ghost use Rattle.memory.specs.Plan.{slices_of};
ghost use Rattle.std.specs.Prelude.{◌≡◌};
ghost use Rattle.planner.specs.Calls.{open_result, opened};
ghost use Rattle.rule.specs.Refusals.{number_in};

use memory::Tally;
use opening::open_core;
use rule::Refusal;

// Opens a plan of `banks` banks with no clash, or changes nothing and gives the refusal of the first no.
pub fn open(
    neighbours: &mut [u16],
    degrees: &mut [u16],
    waves: &mut [u16],
    counts: &mut [u16],
    ranks: &mut [u16],
    banks: u16,
    tally: &mut Tally,
) -> Result<(), Refusal>
    ensures { open_result (number_in result) (slices_of neighbours.new degrees.new waves.new counts.new ranks.new) tally.new
        ≡ opened banks (slices_of neighbours.old degrees.old waves.old counts.old ranks.old) tally.old }
{
    *tally = open_core(neighbours, degrees, waves, counts, ranks, banks, *tally)?;
    Ok(())
}
