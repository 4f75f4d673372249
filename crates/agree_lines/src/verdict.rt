// The verdict on a sheet.
ghost use Rattle.memory.specs.Lent.{slices_in};
ghost use Rattle.std.specs.Prelude.{true, ◌≡◌, ◌≤◌, ◌<◌, length};
ghost use Rattle.planner.specs.Calls.{plan_number};
ghost use Rattle.text.specs.Places.{Puts};
ghost use Rattle.sheet_parser.specs.Sheets.{wave_read, is_sheet};
ghost use Rattle.agree_lines.specs.Lines.{clash_text};
ghost use Rattle.agree_lines.specs.Verdicts.{is_own, Printed};

use crate::line::{put_accepted, put_clash, put_many, put_no_sheet};
use list_program::put_refusal;
use memory::{PlanMemory, Tally};
use rule::{Bank, MOST_BANKS, Wave};
use sheet_parser::{UNNAMED, read_sheet};
use sheet_reader::{SheetRefusal, check_sheet};
use sheet_writer::{LONGEST_SHEET, write_sheet};

// Whether the sheet is the one that the planner writes.
fn is_own(plan: PlanMemory, sheet: &[u8]) -> bool
    requires { plan_number (slices_in plan) plan.tally ≡ 0 }
    ensures { result ≡ is_own (slices_in plan.entry) plan.entry.tally sheet.now }
{
    let mut own = [0u8; LONGEST_SHEET];
    match write_sheet(plan, &mut own) {
        Ok(length) => sheet == &own[..length],
        Err(_) => false,
    }
}

// The wave of bank b on a sheet of the plan.
fn wave_on(sheet: &[u8], tally: Tally, b: Bank) -> Wave
    requires { (is_sheet tally.banks tally.clashes sheet.now ≡ true) × (b.0 < tally.banks) × (tally.banks ≤ 1024) }
    ensures { (result.0 ≡ wave_read sheet.now b.0) × (result.0 < 24) }
{
    let mut cells = [UNNAMED; MOST_BANKS];
    let _ = read_sheet(sheet, tally, &mut cells);
    Wave(cells[usize::from(b.0)])
}

// Two banks that clash in one wave of the sheet.
fn put_banks(out: &mut [u8], sheet: &[u8], tally: Tally, a: Bank, b: Bank) -> usize
    requires room { 49 ≤ length out.old }
    requires sheet { (is_sheet tally.banks tally.clashes sheet.now ≡ true) × (tally.banks ≤ 1024) }
    requires first_is_bank { a.0 < tally.banks }
    ensures { Puts (clash_text a.0 b.0 (wave_read sheet.now a.0)) 0 out.old result out.new × (result ≤ 49) }
{
    let w = wave_on(sheet, tally, a);
    put_clash(out, a, b, w)
}

// The lines on a sheet, at the front.
pub fn put_verdict(out: &mut [u8], plan: PlanMemory, sheet: &[u8]) -> usize
    requires { 49 ≤ length out.old }
    ensures { Printed (slices_in plan.entry) plan.entry.tally sheet.now out.old result out.new × (result ≤ length out.new) }
{
    let tally = plan.tally;
    match check_sheet(plan, sheet) {
        Ok(()) => put_accepted(out, is_own(plan, sheet)),
        Err(SheetRefusal::Asked(refusal)) => put_refusal(out, u16::from(refusal), 0),
        Err(SheetRefusal::NoSheet { line }) => put_no_sheet(out, line),
        Err(SheetRefusal::Clash { first, second }) => put_banks(out, sheet, tally, first, second),
        Err(SheetRefusal::ManyWaves) => put_many(out, tally.waves),
    }
}
