// The answer to a list and a sheet: the verdict on the sheet by the list's plan, or the list's refusal.
use agree_lines::{VERDICT_BYTES, put_verdict};
use list_program::put_refusal;
use list_reader::read_list_core;
use memory::{PlanMemory, Tally};
use rule::{COUNT_CELLS, MOST_BANKS, MOST_WAVES, ROW_CELLS};

// The cells of Neighbours and of Counts for the most banks.
const NEIGHBOUR_CELLS: usize = ROW_CELLS * MOST_BANKS;

const WAVE_COUNT_CELLS: usize = COUNT_CELLS * MOST_BANKS;

// The most bytes of a refusal.
const REFUSAL_BYTES: usize = 24;

// Writes bytes to standard output. Answers whether they were written.
fn print(rt: &impl Print, text: &[u8]) -> bool {
    rt.write_all(text).is_ok()
}

// `REFUSED c ROW r`.
fn print_refusal(rt: &impl Print, number: u16, row: u16) -> bool {
    let mut line = [0u8; REFUSAL_BYTES];
    let length = put_refusal(&mut line, number, row);
    print(rt, &line[..length])
}

// The verdict on a sheet by the list's plan. Answers whether it was written.
fn print_verdict(rt: &impl Print, plan: PlanMemory, sheet: &[u8]) -> bool {
    let mut lines = [0u8; VERDICT_BYTES];
    let length = put_verdict(&mut lines, plan, sheet);
    print(rt, &lines[..length])
}

// The answer to a list and a sheet. Answers whether it was written.
pub fn answer(rt: &impl Print, list: &[u8], sheet: &[u8]) -> bool {
    let mut neighbours = [0u16; NEIGHBOUR_CELLS];
    let mut degrees = [0u16; MOST_BANKS];
    let mut waves = [0u16; MOST_BANKS];
    let mut counts = [0u16; WAVE_COUNT_CELLS];
    let mut ranks = [0u16; MOST_BANKS];
    let mut trail = [0u16; MOST_BANKS];
    let mut moved = [0u16; MOST_BANKS];
    let read = read_list_core(
        list,
        &mut neighbours,
        &mut degrees,
        &mut waves,
        &mut counts,
        &mut ranks,
        &mut trail,
        &mut moved,
        Tally {
            banks: 0,
            clashes: 0,
            waves: 0,
            cap: MOST_WAVES,
        },
    );
    let reading = read.answer;
    if reading.number != 0 {
        return print_refusal(rt, reading.number, reading.row);
    }
    let plan = PlanMemory {
        neighbours: &neighbours,
        degrees: &degrees,
        waves: &waves,
        counts: &counts,
        ranks: &ranks,
        tally: read.tally,
    };
    print_verdict(rt, plan, sheet)
}
