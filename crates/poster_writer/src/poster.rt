// Writing the poster of a plan.
ghost use Rattle.memory.specs.Lent.{slices_in};
ghost use Rattle.std.specs.Prelude.{◌≡◌};
ghost use Rattle.wave_lines.specs.Calls.{text_result};
ghost use Rattle.poster_writer.specs.Calls.{write_poster};

use crate::waves::{count_lines, put_waves};
use memory::PlanMemory;
use planner::check_plan;
use poster_lines::{put_blank_lines, put_foot_line};
use rule::Refusal;

// The lines of a page, and its bytes: 41 for each line.
const PAGE_LINES: usize = 50;

const PAGE_BYTES: usize = 41 * PAGE_LINES;

// The bytes of the longest poster: 1,024 banks in 24 waves take up to 166 lines, and the foot one, four pages.
pub const LONGEST_POSTER: usize = 4 * PAGE_BYTES;

// Writes the poster of the plan to the front of out.
pub fn write_poster(plan: PlanMemory, out: &mut [u8]) -> Result<usize, Refusal>
    ensures { text_result result out.new
        ≡ write_poster (slices_in plan.entry) plan.entry.tally out.old }
{
    check_plan(plan)?;
    let tally = plan.tally;
    let n = tally.banks;
    let k = tally.waves;
    let lines = count_lines(plan.waves, n, k) + 1;
    let pages = lines.div_ceil(PAGE_LINES);
    let length = PAGE_BYTES * pages;
    if out.len() < length {
        return Err(Refusal::ShortOutput);
    }
    let foot = put_waves(out, plan.waves, n, k);
    let end = put_foot_line(out, foot, tally);
    put_blank_lines(out, end, PAGE_LINES * pages - lines);
    Ok(length)
}
