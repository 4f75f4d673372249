// The calls that write bytes of the plan to the front of a slice. The result is how many they are.
ghost use Rattle.memory.specs.Plan.{slices_of};
ghost use Rattle.std.specs.Prelude.{◌≡◌};
ghost use Rattle.c_texts.specs.Texts.{text_answered, sheet_call, poster_call, start_call};

use c_texts::{start_journal_in, write_poster_in, write_sheet_in};

// Writes the sheet.
#[unsafe(no_mangle)]
pub extern "C" fn wave_plan_write_sheet(
    neighbours: &[u16],
    degrees: &[u16],
    waves: &[u16],
    counts: &[u16],
    ranks: &[u16],
    tally: &[u16],
    out: &mut [u8],
    res: &mut [u16],
) -> u16
    ensures { text_answered result out.new res.new
        ≡ sheet_call (slices_of neighbours.now degrees.now waves.now counts.now ranks.now) tally.now out.old res.old }
{
    write_sheet_in(neighbours, degrees, waves, counts, ranks, tally, out, res)
}

// Writes the poster.
#[unsafe(no_mangle)]
pub extern "C" fn wave_plan_write_poster(
    neighbours: &[u16],
    degrees: &[u16],
    waves: &[u16],
    counts: &[u16],
    ranks: &[u16],
    tally: &[u16],
    out: &mut [u8],
    res: &mut [u16],
) -> u16
    ensures { text_answered result out.new res.new
        ≡ poster_call (slices_of neighbours.now degrees.now waves.now counts.now ranks.now) tally.now out.old res.old }
{
    write_poster_in(neighbours, degrees, waves, counts, ranks, tally, out, res)
}

// Starts a journal.
#[unsafe(no_mangle)]
pub extern "C" fn wave_plan_start_journal(
    neighbours: &[u16],
    degrees: &[u16],
    waves: &[u16],
    counts: &[u16],
    ranks: &[u16],
    tally: &[u16],
    journal: &mut [u8],
    res: &mut [u16],
) -> u16
    ensures { text_answered result journal.new res.new
        ≡ start_call (slices_of neighbours.now degrees.now waves.now counts.now ranks.now) tally.now journal.old res.old }
{
    start_journal_in(
        neighbours, degrees, waves, counts, ranks, tally, journal, res,
    )
}
