// What a program does, with a text that a function writes: it reads a list from standard input, and writes its answer to standard output.
ghost use Rattle.std.specs.Prelude.{List, ℕ, ◌≡◌, ◌≤◌, length};
ghost use Rattle.rule.specs.Graph.{Graph};
ghost use Rattle.list_program.specs.Answers.{answer_result, answer_of};
ghost use Rattle.list_program.specs.Writing.{Writes, WritesWithin};

use crate::answer::{NEIGHBOUR_CELLS, WAVE_COUNT_CELLS};
use crate::input::{LIST_BYTES, read_input};
use crate::refusal::put_refusal;
use list_reader::read_list_core;
use memory::{PlanMemory, Tally};
use poster_writer::LONGEST_POSTER;
use rule::{MOST_BANKS, MOST_WAVES, Refusal};

// Writes the answer to a list to the front of out, by the function that writes the text of a plan, and answers its length.
fn answer_list_by<F: for<'a> FnOnce(PlanMemory<'a, 'a>, &mut [u8]) -> Result<usize, Refusal>>(
    write: F,
    list: &[u8],
    out: &mut [u8],
) -> usize
    requires room { 24 ≤ length out.old }
    requires callable { F.IsAlwaysCallable write }
    requires written_within { WritesWithin (F.post write) }
    ensures answers { (text : Graph → List ℕ) → Writes (F.post write) text
        → answer_result result out.new ≡ answer_of text list.now out.old }
    ensures within { result ≤ length out.new }
{
    let mut neighbours = [0u16; NEIGHBOUR_CELLS];
    let mut degrees = [0u16; MOST_BANKS];
    let mut waves = [0u16; MOST_BANKS];
    let mut counts = [0u16; WAVE_COUNT_CELLS];
    let mut ranks = [0u16; MOST_BANKS];
    let mut trail = [0u16; MOST_BANKS];
    let mut moved = [0u16; MOST_BANKS];
    let read = read_list_core(
        list,
        &mut neighbours,
        &mut degrees,
        &mut waves,
        &mut counts,
        &mut ranks,
        &mut trail,
        &mut moved,
        Tally {
            banks: 0,
            clashes: 0,
            waves: 0,
            cap: MOST_WAVES,
        },
    );
    let reading = read.answer;
    if reading.number != 0 {
        return put_refusal(out, reading.number, reading.row);
    }
    let plan = PlanMemory {
        neighbours: &neighbours,
        degrees: &degrees,
        waves: &waves,
        counts: &counts,
        ranks: &ranks,
        tally: read.tally,
    };
    write(plan, out).unwrap_or(0)
}

// Writes a text of the list's plan, which `write` writes, or its refusal. A system error is told on standard error.
pub fn run<F: for<'a> FnOnce(PlanMemory<'a, 'a>, &mut [u8]) -> Result<usize, Refusal>>(
    rt: &(impl Input + Print + Eprint),
    write: F,
)
    ghost text: { Graph → List ℕ }
    requires callable { F.IsAlwaysCallable write }
    requires writes { Writes (F.post write) text }
{
    let mut list = [0u8; LIST_BYTES];
    let Some(bytes) = read_input(rt, &mut list) else {
        let _ = rt.eprint("standard input cannot be read\n");
        return;
    };
    // The poster is the longest text.
    let mut out = [0u8; LONGEST_POSTER];
    let length = answer_list_by(write, &list[..bytes], &mut out);
    if rt.write_all(&out[..length]).is_err() {
        let _ = rt.eprint("standard output cannot be written\n");
    }
}
