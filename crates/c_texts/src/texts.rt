// The calls that write bytes of the plan to the front of a slice. The result is how many they are.
ghost use Rattle.memory.specs.Plan.{slices_of};
ghost use Rattle.std.specs.Prelude.{◌≡◌};
ghost use Rattle.c_texts.specs.Texts.{text_answered, sheet_call, poster_call, start_call};

use c_cells::{put_result, room, tally_in};
use journal::start_journal;
use memory::PlanMemory;
use poster_writer::write_poster;
use sheet_writer::write_sheet;

const TEXT_RESULTS: usize = 1;

// Each function says which call it makes by calling it: one function that took the call as a closure would have to say in its contract, of any
// closure, what these say plainly of one call.

// Writes the sheet.
pub fn write_sheet_in(
    neighbours: &[u16],
    degrees: &[u16],
    waves: &[u16],
    counts: &[u16],
    ranks: &[u16],
    tally: &[u16],
    out: &mut [u8],
    res: &mut [u16],
) -> u16
    ensures { text_answered result out.new res.new
        ≡ sheet_call (slices_of neighbours.now degrees.now waves.now counts.now ranks.now) tally.now out.old res.old }
{
    let short = room(tally.len(), res.len(), TEXT_RESULTS);
    if short != 0 {
        return short;
    }
    let tally = tally_in(tally);
    let plan = PlanMemory {
        neighbours,
        degrees,
        waves,
        counts,
        ranks,
        tally,
    };
    put_result(res, write_sheet(plan, out).map(|length| length as u16))
}

// Writes the poster.
pub fn write_poster_in(
    neighbours: &[u16],
    degrees: &[u16],
    waves: &[u16],
    counts: &[u16],
    ranks: &[u16],
    tally: &[u16],
    out: &mut [u8],
    res: &mut [u16],
) -> u16
    ensures { text_answered result out.new res.new
        ≡ poster_call (slices_of neighbours.now degrees.now waves.now counts.now ranks.now) tally.now out.old res.old }
{
    let short = room(tally.len(), res.len(), TEXT_RESULTS);
    if short != 0 {
        return short;
    }
    let tally = tally_in(tally);
    let plan = PlanMemory {
        neighbours,
        degrees,
        waves,
        counts,
        ranks,
        tally,
    };
    put_result(res, write_poster(plan, out).map(|length| length as u16))
}

// Starts a journal.
pub fn start_journal_in(
    neighbours: &[u16],
    degrees: &[u16],
    waves: &[u16],
    counts: &[u16],
    ranks: &[u16],
    tally: &[u16],
    journal: &mut [u8],
    res: &mut [u16],
) -> u16
    ensures { text_answered result journal.new res.new
        ≡ start_call (slices_of neighbours.now degrees.now waves.now counts.now ranks.now) tally.now journal.old res.old }
{
    let short = room(tally.len(), res.len(), TEXT_RESULTS);
    if short != 0 {
        return short;
    }
    let tally = tally_in(tally);
    let plan = PlanMemory {
        neighbours,
        degrees,
        waves,
        counts,
        ranks,
        tally,
    };
    put_result(
        res,
        start_journal(plan, journal).map(|length| length as u16),
    )
}
