// The sheet reader: whether bytes from anybody are a sheet of a plan that keeps clashing banks apart. `check_sheet` is the call.
#![tactic(auto)]

mod refusal;
mod rows;

ghost use Rattle.memory.specs.Lent.{slices_in};
ghost use Rattle.std.specs.Prelude.{◌≤◌, length};
ghost use Rattle.memory.specs.inner.View.{Rowed};
ghost use Rattle.sheet_reader.specs.Calls.{verdict_of, Answered, OfKind};
ghost use Rattle.sheet_parser.specs.inner.Lines.{wave_in};
ghost use Rattle.sheet_reader.specs.inner.Rows.{rows_in, Judged};

use crate::rows::find_clash;
use memory::PlanMemory;
use planner::check_plan;
pub use refusal::SheetRefusal;
use rule::MOST_BANKS;
use sheet_parser::{UNNAMED, read_sheet};

// Judges a sheet of k waves by the waves of its banks: does it keep clashing banks apart, in no more waves than the plan?
fn judge(plan: PlanMemory, cells: &[u16], k: u16) -> Result<(), SheetRefusal>
    requires rowed { Rowed (rows_in plan.tally.banks plan.neighbours.now) plan.neighbours.now plan.degrees.now }
    requires cells_for_all { plan.tally.banks ≤ length cells.now }
    ensures judged { Judged (rows_in plan.entry.tally.banks plan.entry.neighbours.now) (wave_in cells.now) k plan.entry.tally.waves (verdict_of result) }
    ensures kind { OfKind result }
{
    let tally = plan.tally;
    if let Some((first, second)) = find_clash(plan.neighbours, plan.degrees, cells, tally.banks) {
        return Err(SheetRefusal::Clash { first, second });
    }
    if tally.waves < k {
        return Err(SheetRefusal::ManyWaves);
    }
    Ok(())
}

// Whether the bytes are a sheet of this plan with each bank once, no empty wave and its foot, that keeps clashing banks in
// different waves and has no more waves than the plan.
pub fn check_sheet(plan: PlanMemory, sheet: &[u8]) -> Result<(), SheetRefusal>
    ensures answered { Answered (slices_in plan.entry) plan.entry.tally sheet.now (verdict_of result) }
    ensures kind { OfKind result }
{
    check_plan(plan)?;
    let mut cells = [UNNAMED; MOST_BANKS];
    match read_sheet(sheet, plan.tally, &mut cells) {
        Ok(k) => judge(plan, &cells, k),
        Err(line) => Err(SheetRefusal::NoSheet { line }),
    }
}
