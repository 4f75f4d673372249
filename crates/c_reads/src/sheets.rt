// Checking a sheet from anybody.
ghost use Rattle.memory.specs.Plan.{slices_of};
ghost use Rattle.c_reads.specs.Sheets.{SheetChecked};

use c_cells::{room, tally_in};
use memory::{PlanMemory, put_front};
use rule::Refusal;
use sheet_reader::{SheetRefusal, check_sheet};

const SHEET_RESULTS: usize = 3;

// Whether the bytes are a sheet of the plan that keeps clashing banks apart: the results are the line at fault and the two banks.
pub fn check_sheet_in(
    neighbours: &[u16],
    degrees: &[u16],
    waves: &[u16],
    counts: &[u16],
    ranks: &[u16],
    tally: &[u16],
    res: &mut [u16],
    sheet: &[u8],
) -> u16
    ensures { SheetChecked
        (slices_of neighbours.now degrees.now waves.now counts.now ranks.now)
        tally.now
        res.old
        sheet.now
        result
        res.new }
{
    let short = room(tally.len(), res.len(), SHEET_RESULTS);
    if short != 0 {
        return short;
    }
    let plan = PlanMemory {
        neighbours,
        degrees,
        waves,
        counts,
        ranks,
        tally: tally_in(tally),
    };
    match check_sheet(plan, sheet) {
        Ok(()) => {
            put_front(res, &[0, 0, 0]);
            0
        }
        Err(SheetRefusal::Asked(refusal)) => {
            put_front(res, &[0, 0, 0]);
            u16::from(refusal)
        }
        Err(SheetRefusal::NoSheet { line }) => {
            put_front(res, &[line, 0, 0]);
            u16::from(Refusal::NoSheet)
        }
        Err(SheetRefusal::Clash { first, second }) => {
            put_front(res, &[0, first.0, second.0]);
            u16::from(Refusal::ClashInWave)
        }
        Err(SheetRefusal::ManyWaves) => {
            put_front(res, &[0, 0, 0]);
            u16::from(Refusal::ClashInWave)
        }
    }
}
