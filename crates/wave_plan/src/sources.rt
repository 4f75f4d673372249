// The calls that make a plan from bytes.
ghost use Rattle.std.specs.Prelude.{◌≡◌};
ghost use Rattle.c_cells.specs.CellMemory.{answered};
ghost use Rattle.c_cells.specs.Lent.{cells_given};
ghost use Rattle.c_texts.specs.Texts.{list_call, replay_call};

use c_texts::{read_list_in, replay_in};

// Reads a list. The result is the row.
#[unsafe(no_mangle)]
pub extern "C" fn wave_plan_read_list(
    list: &[u8],
    neighbours: &mut [u16],
    degrees: &mut [u16],
    waves: &mut [u16],
    counts: &mut [u16],
    ranks: &mut [u16],
    trail: &mut [u16],
    moved: &mut [u16],
    tally: &mut [u16],
    res: &mut [u16],
) -> u16
    ensures { answered result (cells_given neighbours.new degrees.new waves.new counts.new ranks.new trail.new moved.new tally.new res.new)
        ≡ list_call list.now (cells_given neighbours.old degrees.old waves.old counts.old ranks.old trail.old moved.old tally.old res.old) }
{
    read_list_in(
        list, neighbours, degrees, waves, counts, ranks, trail, moved, tally, res,
    )
}

// Replays a journal. The results are the field and the number of bytes left over.
#[unsafe(no_mangle)]
pub extern "C" fn wave_plan_replay(
    journal: &[u8],
    neighbours: &mut [u16],
    degrees: &mut [u16],
    waves: &mut [u16],
    counts: &mut [u16],
    ranks: &mut [u16],
    trail: &mut [u16],
    moved: &mut [u16],
    tally: &mut [u16],
    res: &mut [u16],
) -> u16
    ensures { answered result (cells_given neighbours.new degrees.new waves.new counts.new ranks.new trail.new moved.new tally.new res.new)
        ≡ replay_call journal.now (cells_given neighbours.old degrees.old waves.old counts.old ranks.old trail.old moved.old tally.old res.old) }
{
    replay_in(
        journal, neighbours, degrees, waves, counts, ranks, trail, moved, tally, res,
    )
}
