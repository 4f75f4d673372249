// The pass over the rows after the N row.
ghost use Rattle.std.specs.Prelude.{false, ◌≡◌};
ghost use Rattle.memory.specs.Lent.{given};
ghost use Rattle.queue.specs.Queue.{Idle, Unranked};
ghost use Rattle.list_pass.specs.inner.Steps.{AsksRow, AsksRows, ReadsEdits, EditsRow};

use crate::change::apply;
use list_pass::{Listed, Step, begun_after, ended, not_taken};
use list_rows::{Row, read_row_in};
use memory::Tally;
use queue::WORDS;
use queue_places::reset;
use text::find;

// Makes the edits of the rows after row `row`, the first of which starts at `first`.
pub fn read_edits(
    list: &[u8],
    v2: bool,
    row: u16,
    first: usize,
    neighbours: &mut [u16],
    degrees: &mut [u16],
    waves: &mut [u16],
    counts: &mut [u16],
    ranks: &mut [u16],
    trail: &mut [u16],
    moved: &mut [u16],
    tally: Tally,
) -> Listed
    requires { AsksRows list.now row first (given neighbours.old degrees.old waves.old counts.old ranks.old trail.old moved.old tally) }
    ensures { ReadsEdits list.now v2 row first
        (given neighbours.old degrees.old waves.old counts.old ranks.old trail.old moved.old tally) result
        (given neighbours.new degrees.new waves.new counts.new ranks.new trail.new moved.new result.tally) }
{
    let mut queue = [0u64; WORDS];
    reset(&mut queue);
    let mut last = Step {
        number: 0,
        row,
        next: first,
        begun: false,
        tally,
    };
    // No `for`, which would be no plainer: the pass goes on while rows are left and none was refused.
    while last.number == 0 && last.next < list.len() {
        last = edit_row(
            list,
            v2,
            last.next,
            last.row + 1,
            neighbours,
            degrees,
            waves,
            counts,
            ranks,
            trail,
            moved,
            &mut queue,
            last.tally,
            last.begun,
        );
    }
    Listed {
        answer: ended(last.number, last.row),
        tally: last.tally,
    }
}

// Reads the row that starts at `start`, which is row `row`, and makes its edit.
fn edit_row(
    list: &[u8],
    v2: bool,
    start: usize,
    row: u16,
    neighbours: &mut [u16],
    degrees: &mut [u16],
    waves: &mut [u16],
    counts: &mut [u16],
    ranks: &mut [u16],
    trail: &mut [u16],
    moved: &mut [u16],
    queue: &mut [u64; WORDS],
    tally: Tally,
    begun: bool,
) -> Step
    requires asks_row { AsksRow list.now start begun (given neighbours.old degrees.old waves.old counts.old ranks.old trail.old moved.old tally) }
    requires idle { Idle tally.banks ranks.old queue.old }
    requires unranked { begun ≡ false → Unranked queue.old }
    ensures edits_row { EditsRow list.now v2 start row begun
        (given neighbours.old degrees.old waves.old counts.old ranks.old trail.old moved.old tally) result
        (given neighbours.new degrees.new waves.new counts.new ranks.new trail.new moved.new result.tally) }
    ensures idle_after { Idle tally.banks ranks.new queue.new }
    ensures unranked_after { result.begun ≡ false → Unranked queue.new }
{
    let end = find(list, start, b'\n');
    let next = end + 1;
    let read = read_row_in(v2, &list[start..end]);
    let Row::Edit(change) = read else {
        return Step {
            number: u16::from(not_taken(read)),
            row,
            next,
            begun,
            tally,
        };
    };
    let done = apply(
        neighbours, degrees, waves, counts, ranks, trail, moved, queue, tally, begun, change,
    );
    Step {
        number: done.answer.number,
        row,
        next,
        begun: begun_after(change, begun),
        tally: done.tally,
    }
}
