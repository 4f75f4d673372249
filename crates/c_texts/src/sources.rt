// The calls that make a plan from bytes.
ghost use Rattle.std.specs.Prelude.{◌≡◌};
ghost use Rattle.c_cells.specs.CellMemory.{answered};
ghost use Rattle.c_cells.specs.Lent.{cells_given};
ghost use Rattle.c_texts.specs.Texts.{list_call, replay_call};

use c_cells::{put_answer, room, tally_in};
use journal_replay::replay_core;
use list_reader::read_list_core;

// A list has one result, the row; a journal two, the field and the number of bytes left over.
const LIST_RESULTS: usize = 1;

const REPLAY_RESULTS: usize = 2;

// Reads a list.
pub fn read_list_in(
    list: &[u8],
    neighbours: &mut [u16],
    degrees: &mut [u16],
    waves: &mut [u16],
    counts: &mut [u16],
    ranks: &mut [u16],
    trail: &mut [u16],
    moved: &mut [u16],
    tally: &mut [u16],
    res: &mut [u16],
) -> u16
    ensures { answered result (cells_given neighbours.new degrees.new waves.new counts.new ranks.new trail.new moved.new tally.new res.new)
        ≡ list_call list.now (cells_given neighbours.old degrees.old waves.old counts.old ranks.old trail.old moved.old tally.old res.old) }
{
    let short = room(tally.len(), res.len(), LIST_RESULTS);
    if short != 0 {
        return short;
    }
    let t = tally_in(tally);
    let made = read_list_core(
        list, neighbours, degrees, waves, counts, ranks, trail, moved, t,
    );
    put_answer(tally, res, made.tally, &[made.answer.row]);
    made.answer.number
}

// Replays a journal.
pub fn replay_in(
    journal: &[u8],
    neighbours: &mut [u16],
    degrees: &mut [u16],
    waves: &mut [u16],
    counts: &mut [u16],
    ranks: &mut [u16],
    trail: &mut [u16],
    moved: &mut [u16],
    tally: &mut [u16],
    res: &mut [u16],
) -> u16
    ensures { answered result (cells_given neighbours.new degrees.new waves.new counts.new ranks.new trail.new moved.new tally.new res.new)
        ≡ replay_call journal.now (cells_given neighbours.old degrees.old waves.old counts.old ranks.old trail.old moved.old tally.old res.old) }
{
    let short = room(tally.len(), res.len(), REPLAY_RESULTS);
    if short != 0 {
        return short;
    }
    let t = tally_in(tally);
    let made = replay_core(
        journal, neighbours, degrees, waves, counts, ranks, trail, moved, t,
    );
    put_answer(
        tally,
        res,
        made.tally,
        &[made.answer.field, made.answer.left_over],
    );
    made.answer.number
}
