// The edits that are recorded. Their results are the moved count, the trail count and the journal's new length.
ghost use Rattle.std.specs.Prelude.{◌≡◌};
ghost use Rattle.c_cells.specs.Lent.{cells_given};
ghost use Rattle.c_calls.specs.Calls.{record_answered, record_call};

use c_cells::{put_answer, room, tally_in};
use recorded_edits::record_core;
use rule::{Bank, Kind};

const RECORD_RESULTS: usize = 3;

// An edit of this kind, written after the last field of the journal of `length` bytes.
pub fn record_in(
    kind: Kind,
    neighbours: &mut [u16],
    degrees: &mut [u16],
    waves: &mut [u16],
    counts: &mut [u16],
    ranks: &[u16],
    trail: &mut [u16],
    moved: &mut [u16],
    tally: &mut [u16],
    journal: &mut [u8],
    res: &mut [u16],
    a: u16,
    b: u16,
    length: usize,
) -> u16
    ensures { record_answered result (cells_given neighbours.new degrees.new waves.new counts.new ranks.now trail.new moved.new tally.new res.new)
        journal.new
        ≡ record_call kind a b (cells_given neighbours.old degrees.old waves.old counts.old ranks.now trail.old moved.old tally.old res.old)
        length journal.old }
{
    let short = room(tally.len(), res.len(), RECORD_RESULTS);
    if short != 0 {
        return short;
    }
    let t = tally_in(tally);
    let r = record_core(
        kind,
        neighbours,
        degrees,
        waves,
        counts,
        ranks,
        trail,
        moved,
        t,
        Bank(a),
        Bank(b),
        journal,
        length,
    );
    put_answer(
        tally,
        res,
        r.tally,
        &[r.answer.moved, r.answer.trail, r.answer.length],
    );
    r.answer.number
}
