// The calls that read a list and replay a journal, as a caller makes them: the tally is lent, and left as the call leaves it.
ghost use Rattle.std.specs.Prelude.{◌≡◌};
ghost use Rattle.memory.specs.Lent.{given};
ghost use Rattle.list_pass.specs.Pass.{list_result, read_list};
ghost use Rattle.journal_replay.specs.Replay.{replay_result, replayed};

use journal_replay::{Replayed, replay_core};
use list_pass::Reading;
use list_reader::read_list_core;
use memory::Tally;

// Reads a list: opens the plan, then makes the rows' edits. Answers 0, or the number of the first no and its row.
pub fn read_list(
    list: &[u8],
    neighbours: &mut [u16],
    degrees: &mut [u16],
    waves: &mut [u16],
    counts: &mut [u16],
    ranks: &mut [u16],
    trail: &mut [u16],
    moved: &mut [u16],
    tally: &mut Tally,
) -> Reading
    ensures { list_result result (given neighbours.new degrees.new waves.new counts.new ranks.new trail.new moved.new tally.new)
        ≡ read_list list.now (given neighbours.old degrees.old waves.old counts.old ranks.old trail.old moved.old tally.old) }
{
    let r = read_list_core(
        list, neighbours, degrees, waves, counts, ranks, trail, moved, *tally,
    );
    *tally = r.tally;
    r.answer
}

// Replays a journal: opens the plan of its first field, then enters the entries of the others. Answers 0 and the bytes left over, or the number
// of the first no and its field.
pub fn replay(
    journal: &[u8],
    neighbours: &mut [u16],
    degrees: &mut [u16],
    waves: &mut [u16],
    counts: &mut [u16],
    ranks: &mut [u16],
    trail: &mut [u16],
    moved: &mut [u16],
    tally: &mut Tally,
) -> Replayed
    ensures { replay_result result (given neighbours.new degrees.new waves.new counts.new ranks.new trail.new moved.new tally.new)
        ≡ replayed journal.now (given neighbours.old degrees.old waves.old counts.old ranks.old trail.old moved.old tally.old) }
{
    let replayed = replay_core(
        journal, neighbours, degrees, waves, counts, ranks, trail, moved, *tally,
    );
    *tally = replayed.tally;
    replayed.answer
}
