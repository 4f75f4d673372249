// Checking a sheet from anybody.

ghost use Rattle.memory.specs.Plan.{slices_of};
ghost use Rattle.c_reads.specs.Sheets.{SheetChecked};

use c_reads::check_sheet_in;

// Whether the bytes are a sheet of the plan that keeps clashing banks apart. The results are the line at fault, from 1, and two clashing banks in one wave.
#[unsafe(no_mangle)]
pub extern "C" fn wave_plan_check_sheet(
    neighbours: &[u16],
    degrees: &[u16],
    waves: &[u16],
    counts: &[u16],
    ranks: &[u16],
    tally: &[u16],
    res: &mut [u16],
    sheet: &[u8],
) -> u16
    ensures { SheetChecked
        (slices_of neighbours.now degrees.now waves.now counts.now ranks.now)
        tally.now
        res.old
        sheet.now
        result
        res.new }
{
    check_sheet_in(neighbours, degrees, waves, counts, ranks, tally, res, sheet)
}
