// The pass over a list.
ghost use Rattle.std.specs.Prelude.{◌≡◌};
ghost use Rattle.memory.specs.Lent.{given};
ghost use Rattle.list_pass.specs.Pass.{list_result, read_list};
ghost use Rattle.list_pass.specs.inner.Steps.{AsksBegin, Begins};

use list_edits::read_edits;
use list_pass::{Listed, Reading, first_row};
use list_rows::{Row, read_row_in};
use memory::Tally;
use opening::open_all;
use rule::Refusal;
use text::{MOST_BYTES, find};

// Reads a list: opens the plan, then makes the rows' edits. It takes and returns the tally by value: `lent_calls` has the call that borrows it.
pub fn read_list_core(
    list: &[u8],
    neighbours: &mut [u16],
    degrees: &mut [u16],
    waves: &mut [u16],
    counts: &mut [u16],
    ranks: &mut [u16],
    trail: &mut [u16],
    moved: &mut [u16],
    tally: Tally,
) -> Listed
    ensures { list_result result.answer (given neighbours.new degrees.new waves.new counts.new ranks.new trail.new moved.new result.tally)
        ≡ read_list list.now (given neighbours.old degrees.old waves.old counts.old ranks.old trail.old moved.old tally) }
{
    if MOST_BYTES < list.len() {
        return Listed {
            answer: Reading {
                number: u16::from(Refusal::ManyBytes),
                row: 0,
            },
            tally,
        };
    }
    let first = first_row(list);
    let start = first.start;
    let end = find(list, start, b'\n');
    let Row::Banks(banks) = read_row_in(first.v2, &list[start..end]) else {
        return Listed {
            answer: Reading {
                number: u16::from(Refusal::NoBankCount),
                row: first.row,
            },
            tally,
        };
    };
    let next = end + 1;
    begin(
        list, first.v2, first.row, next, banks, neighbours, degrees, waves, counts, ranks, trail,
        moved, tally,
    )
}

// Opens the plan of the N row, row `row`, and makes the edits of the later ones, which start at `next`.
fn begin(
    list: &[u8],
    v2: bool,
    row: u16,
    next: usize,
    banks: u16,
    neighbours: &mut [u16],
    degrees: &mut [u16],
    waves: &mut [u16],
    counts: &mut [u16],
    ranks: &mut [u16],
    trail: &mut [u16],
    moved: &mut [u16],
    tally: Tally,
) -> Listed
    requires { AsksBegin list.now row next }
    ensures { Begins list.now v2 row next banks
        (given neighbours.old degrees.old waves.old counts.old ranks.old trail.old moved.old tally) result
        (given neighbours.new degrees.new waves.new counts.new ranks.new trail.new moved.new result.tally) }
{
    match open_all(
        neighbours, degrees, waves, counts, ranks, trail, moved, banks, tally,
    ) {
        Ok(after) => read_edits(
            list, v2, row, next, neighbours, degrees, waves, counts, ranks, trail, moved, after,
        ),
        Err(refusal) => Listed {
            answer: Reading {
                number: u16::from(refusal),
                row,
            },
            tally,
        },
    }
}
