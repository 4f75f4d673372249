// The answer to a list: a line for each bank that is doubted, or the list's refusal.
use crate::arguments::number_at;
use doubt_lines::{LINE_BYTES, put_line};
use list_program::{arg_count, put_refusal};
use list_reader::read_list_core;
use memory::{PlanMemory, Tally};
use rule::{Bank, COUNT_CELLS, MOST_BANKS, MOST_WAVES, ROW_CELLS};
use std::rt::Env;

// The cells of Neighbours and of Counts for the most banks.
const NEIGHBOUR_CELLS: usize = ROW_CELLS * MOST_BANKS;

const WAVE_COUNT_CELLS: usize = COUNT_CELLS * MOST_BANKS;

// The most bytes of a refusal.
const REFUSAL_BYTES: usize = 24;

// Writes bytes to standard output. Answers whether they were written.
fn print(rt: &impl Print, text: &[u8]) -> bool {
    rt.write_all(text).is_ok()
}

// Prints the line of bank b. Answers whether it was written.
fn print_bank(rt: &impl Print, plan: PlanMemory, b: Bank) -> bool {
    let mut line = [0u8; LINE_BYTES];
    let length = put_line(&mut line, plan, b);
    print(rt, &line[..length])
}

// The line of the bank that argument i names: each names one, as was asked before.
fn print_argument(rt: &(impl Env + Print), plan: PlanMemory, i: usize) -> bool {
    let Some(b) = number_at(rt, i) else {
        return true;
    };
    print_bank(rt, plan, Bank(b))
}

// A line for each argument.
fn print_all(rt: &(impl Env + Print), plan: PlanMemory) -> bool {
    (1..arg_count(rt)).all(|i| print_argument(rt, plan, i))
}

// `REFUSED c ROW r`.
fn print_refusal(rt: &impl Print, number: u16, row: u16) -> bool {
    let mut line = [0u8; REFUSAL_BYTES];
    let length = put_refusal(&mut line, number, row);
    print(rt, &line[..length])
}

// The answer to a list. Answers whether it was written.
pub fn answer(rt: &(impl Env + Print), list: &[u8]) -> bool {
    let mut neighbours = [0u16; NEIGHBOUR_CELLS];
    let mut degrees = [0u16; MOST_BANKS];
    let mut waves = [0u16; MOST_BANKS];
    let mut counts = [0u16; WAVE_COUNT_CELLS];
    let mut ranks = [0u16; MOST_BANKS];
    let mut trail = [0u16; MOST_BANKS];
    let mut moved = [0u16; MOST_BANKS];
    let read = read_list_core(
        list,
        &mut neighbours,
        &mut degrees,
        &mut waves,
        &mut counts,
        &mut ranks,
        &mut trail,
        &mut moved,
        Tally {
            banks: 0,
            clashes: 0,
            waves: 0,
            cap: MOST_WAVES,
        },
    );
    let reading = read.answer;
    if reading.number != 0 {
        return print_refusal(rt, reading.number, reading.row);
    }
    let plan = PlanMemory {
        neighbours: &neighbours,
        degrees: &degrees,
        waves: &waves,
        counts: &counts,
        ranks: &ranks,
        tally: read.tally,
    };
    print_all(rt, plan)
}
