// Writing the sheet of a plan.
ghost use Rattle.memory.specs.Lent.{slices_in};
ghost use Rattle.std.specs.Prelude.{◌≡◌, map, ◌+◌, ◌*◌, ◌≤◌, length};
ghost use Rattle.rule.specs.Lists.{upto};
ghost use Rattle.text.specs.Text.{joined};
ghost use Rattle.wave_lines.specs.Calls.{text_result};
ghost use Rattle.sheet_writer.specs.Sheet.{bank_text, head_text};
ghost use Rattle.sheet_writer.specs.Calls.{write_sheet};

use crate::lines::{put_head, put_last, put_lines};
use memory::PlanMemory;
use planner::check_plan;
use rule::Refusal;
use wave_lines::{digits, foot_length};

// The bytes of the longest sheet, that of 1,024 banks in 24 waves: 9 of `WAVES 24`, 2 for each line, 4,010 of the banks, and 17 of `TOTAL 1024 10000`.
pub const LONGEST_SHEET: usize = 4084;

// The bytes of the banks on their lines, each with its space.
fn banks_length(banks: u16) -> usize
    requires { banks ≤ 1024 }
    ensures { (result ≡ length (joined (map bank_text (upto banks)))) × (result ≤ 4010) }
{
    let n = usize::from(banks);
    match n {
        0..=10 => 2 * n,
        11..=100 => 3 * n - 10,
        101..=1000 => 4 * n - 110,
        _ => 5 * n - 1110,
    }
}

// The bytes of the sheet of n banks in k waves, before its foot: each bank stands on it once, on whichever line.
fn waves_length(n: u16, k: u16) -> usize
    requires { (n ≤ 1024) × (k ≤ 24) }
    ensures { (result ≡ length (head_text k) + (2 * k + length (joined (map bank_text (upto n))))) × (result ≤ 4067) }
{
    7 + digits(k) + 2 * usize::from(k) + banks_length(n)
}

// Writes the sheet of the plan to the front of out.
pub fn write_sheet(plan: PlanMemory, out: &mut [u8]) -> Result<usize, Refusal>
    ensures { text_result result out.new
        ≡ write_sheet (slices_in plan.entry) plan.entry.tally out.old }
{
    check_plan(plan)?;
    let tally = plan.tally;
    let n = tally.banks;
    let k = tally.waves;
    let before = waves_length(n, k);
    let length = before + foot_length(tally) + 1;
    if out.len() < length {
        return Err(Refusal::ShortOutput);
    }
    let next = put_head(out, k);
    let foot = put_lines(out, next, plan.waves, n, k);
    put_last(out, foot, tally);
    Ok(length)
}
