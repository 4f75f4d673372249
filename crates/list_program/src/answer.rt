// The answer to a list: a text of its plan, or its refusal.
ghost use Rattle.std.specs.Prelude.{◌≡◌, ◌≤◌, length};
ghost use Rattle.list_program.specs.Answers.{answer_result, answer_of};

use crate::refusal::put_refusal;
use crate::texts::PlanText;
use list_reader::read_list_core;
use memory::{PlanMemory, Tally};
use rule::{COUNT_CELLS, MOST_BANKS, MOST_WAVES, ROW_CELLS};

// The cells of Neighbours and of Counts for the most banks.
pub const NEIGHBOUR_CELLS: usize = ROW_CELLS * MOST_BANKS;

pub const WAVE_COUNT_CELLS: usize = COUNT_CELLS * MOST_BANKS;

// Writes the answer to a list to the front of out, and answers its length.
pub fn answer_list<W: PlanText>(list: &[u8], out: &mut [u8]) -> usize
    requires room { 24 ≤ length out.old }
    ensures answers { answer_result result out.new ≡ answer_of W.text list.now out.old }
    ensures within { result ≤ length out.new }
{
    let mut neighbours = [0u16; NEIGHBOUR_CELLS];
    let mut degrees = [0u16; MOST_BANKS];
    let mut waves = [0u16; MOST_BANKS];
    let mut counts = [0u16; WAVE_COUNT_CELLS];
    let mut ranks = [0u16; MOST_BANKS];
    let mut trail = [0u16; MOST_BANKS];
    let mut moved = [0u16; MOST_BANKS];
    let read = read_list_core(
        list,
        &mut neighbours,
        &mut degrees,
        &mut waves,
        &mut counts,
        &mut ranks,
        &mut trail,
        &mut moved,
        Tally {
            banks: 0,
            clashes: 0,
            waves: 0,
            cap: MOST_WAVES,
        },
    );
    let reading = read.answer;
    if reading.number != 0 {
        return put_refusal(out, reading.number, reading.row);
    }
    let plan = PlanMemory {
        neighbours: &neighbours,
        degrees: &degrees,
        waves: &waves,
        counts: &counts,
        ranks: &ranks,
        tally: read.tally,
    };
    W::write(plan, out).unwrap_or(0)
}
