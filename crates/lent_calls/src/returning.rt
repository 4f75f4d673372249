// The call come_back as a caller makes it: the tally is lent, and left as the call leaves it.
ghost use Rattle.memory.specs.Plan.{slices_of};
ghost use Rattle.std.specs.Prelude.{◌≡◌};
ghost use Rattle.checkpoints.specs.Calls.{back_result, come_back};
ghost use Rattle.rule.specs.Refusals.{number_in, value_or};

use coming_back::come_back_core;
use memory::Tally;
use rule::Refusal;

// Makes plan memory what is kept under the name, and lists the banks whose wave differs. Answers how many they are, or changes nothing
// and gives the refusal of the first no.
pub fn come_back(
    neighbours: &mut [u16],
    degrees: &mut [u16],
    waves: &mut [u16],
    counts: &mut [u16],
    ranks: &mut [u16],
    moved: &mut [u16],
    tally: &mut Tally,
    shelf: &[u16],
    name: &[u8],
) -> Result<u16, Refusal>
    ensures { back_result (number_in result) (value_or result 0) (slices_of neighbours.new degrees.new waves.new counts.new ranks.new) tally.new moved.new
        ≡ come_back name.now (slices_of neighbours.old degrees.old waves.old counts.old ranks.old) tally.old moved.old shelf.now }
{
    let back = come_back_core(
        neighbours, degrees, waves, counts, ranks, moved, *tally, shelf, name,
    )?;
    *tally = back.tally;
    Ok(back.moved)
}
