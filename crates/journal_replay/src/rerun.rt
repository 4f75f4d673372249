// The call that replays a journal.
ghost use Rattle.std.specs.Prelude.{false, ◌≡◌, ◌<◌, length};
ghost use Rattle.memory.specs.Lent.{given};
ghost use Rattle.rule.specs.Refusals.{number_of};
ghost use Rattle.queue.specs.Queue.{Idle, Unranked};
ghost use Rattle.journal_replay.specs.Replay.{replay_result, replayed};
ghost use Rattle.journal_replay.specs.inner.Steps.{AsksField, EntersField, AsksFields, EntersFields, ending, refused_first};

use entries::{begun_by, enter_held};
use journal_fields::{FIRST_BYTES, Fault, entry_bytes, head_number, is_numbered, number_at};
use journal_reader::{read_field, refusal};
use memory::Tally;
use opening::open_all;
use queue::WORDS;
use queue_places::reset;
use rule::Refusal;

// The place of the banks' number in the first field.
const BANKS_PLACE: usize = 3;

// The answer of a replay: the number, the field that got it, and the bytes left over.
#[derive(Clone, Copy)]
pub struct Replayed {
    pub number: u16,
    pub field: u16,
    pub left_over: u16,
}

// What a replay leaves beside its slices.
#[derive(Clone, Copy)]
pub struct ReplayedPlan {
    pub answer: Replayed,
    pub tally: Tally,
}

// What a field leaves beside the slices: its number, which field it is, whether an edit has come, and where the next field starts.
#[derive(Clone, Copy)]
pub struct Entered {
    pub number: u16,
    pub field: u16,
    pub begun: bool,
    pub next: usize,
    pub tally: Tally,
}

// Reads the field that starts at `start`, which is field `field`, and enters its entry. The first field has no entry: entries count from 1.
fn enter_field(
    journal: &[u8],
    numbered: bool,
    start: usize,
    field: u16,
    neighbours: &mut [u16],
    degrees: &mut [u16],
    waves: &mut [u16],
    counts: &mut [u16],
    ranks: &mut [u16],
    trail: &mut [u16],
    moved: &mut [u16],
    queue: &mut [u64; WORDS],
    tally: Tally,
    begun: bool,
) -> Entered
    requires asks_field { AsksField journal.now numbered start field begun
        (given neighbours.old degrees.old waves.old counts.old ranks.old trail.old moved.old tally) }
    requires idle { Idle tally.banks ranks.old queue.old }
    requires unranked { begun ≡ false → Unranked queue.old }
    ensures enters_field { EntersField journal.now numbered start field begun
        (given neighbours.old degrees.old waves.old counts.old ranks.old trail.old moved.old tally) result
        (given neighbours.new degrees.new waves.new counts.new ranks.new trail.new moved.new result.tally) }
    ensures idle_after { Idle tally.banks ranks.new queue.new }
    ensures unranked_after { result.begun ≡ false → Unranked queue.new }
{
    let next = start + entry_bytes(numbered);
    let number = usize::from(field) - 1;
    let entry = match read_field(&journal[start..], numbered, number) {
        Ok(entry) => entry,
        Err(fault) => {
            return Entered {
                number: u16::from(refusal(fault)),
                field,
                begun,
                next,
                tally,
            };
        }
    };
    let done = enter_held(
        neighbours, degrees, waves, counts, ranks, trail, moved, queue, tally, begun, entry,
    );
    Entered {
        number: done.answer.number,
        field,
        begun: begun_by(entry, begun),
        next,
        tally: done.tally,
    }
}

// The answer after the last field that was whole, which has this number, by the bytes that follow it.
#[tactic(auto, unfolding(crate::specs::inner::Steps::ending, crate::specs::inner::Steps::last_by))]
fn ended(rest: &[u8], numbered: bool, number: u16, field: u16) -> Replayed
    requires { (length rest.now < 65536) × (field < 65535) }
    ensures { result ≡ ending numbered number field rest.now }
{
    if number != 0 {
        return Replayed {
            number,
            field,
            left_over: 0,
        };
    }
    let bytes = rest.len() as u16;
    let Err(Fault::Wrong) = read_field(rest, numbered, usize::from(field)) else {
        return Replayed {
            number: 0,
            field: 0,
            left_over: bytes,
        };
    };
    Replayed {
        number: u16::from(Refusal::WrongField),
        field: field + 1,
        left_over: 0,
    }
}

// Enters the entries of the fields from the second on, which starts at `first`.
fn enter_fields(
    journal: &[u8],
    first: usize,
    neighbours: &mut [u16],
    degrees: &mut [u16],
    waves: &mut [u16],
    counts: &mut [u16],
    ranks: &mut [u16],
    trail: &mut [u16],
    moved: &mut [u16],
    tally: Tally,
) -> ReplayedPlan
    requires { AsksFields journal.now first (given neighbours.old degrees.old waves.old counts.old ranks.old trail.old moved.old tally) }
    ensures { EntersFields journal.now first
        (given neighbours.old degrees.old waves.old counts.old ranks.old trail.old moved.old tally) result
        (given neighbours.new degrees.new waves.new counts.new ranks.new trail.new moved.new result.tally) }
{
    let numbered = is_numbered(&journal[first..]);
    let size = entry_bytes(numbered);
    let mut queue = [0u64; WORDS];
    reset(&mut queue);
    let mut last = Entered {
        number: 0,
        field: 1,
        begun: false,
        next: first,
        tally,
    };
    // No `for`, which would be no plainer: `last` says where the next field starts, and the loop ends with the first field that is refused.
    while last.number == 0 && size <= journal.len() - last.next {
        last = enter_field(
            journal,
            numbered,
            last.next,
            last.field + 1,
            neighbours,
            degrees,
            waves,
            counts,
            ranks,
            trail,
            moved,
            &mut queue,
            last.tally,
            last.begun,
        );
    }
    let answer = ended(&journal[last.next..], numbered, last.number, last.field);
    ReplayedPlan {
        answer,
        tally: last.tally,
    }
}

// A journal refused before its entries.
#[tactic(auto, unfolding(crate::specs::inner::Steps::refused_first))]
fn refuse(refusal: Refusal, tally: Tally) -> ReplayedPlan
    ensures { (result.answer ≡ refused_first (number_of refusal)) × (result.tally ≡ tally) }
{
    let number = u16::from(refusal);
    let field = if number == 9 { 0 } else { 1 };
    ReplayedPlan {
        answer: Replayed {
            number,
            field,
            left_over: 0,
        },
        tally,
    }
}

// Replays a journal: opens the plan of its first field, then enters the entries of the others. It takes and returns the tally by value:
// `lent_calls` has the call that borrows it.
pub fn replay_core(
    journal: &[u8],
    neighbours: &mut [u16],
    degrees: &mut [u16],
    waves: &mut [u16],
    counts: &mut [u16],
    ranks: &mut [u16],
    trail: &mut [u16],
    moved: &mut [u16],
    tally: Tally,
) -> ReplayedPlan
    ensures { replay_result result.answer (given neighbours.new degrees.new waves.new counts.new ranks.new trail.new moved.new result.tally)
        ≡ replayed journal.now (given neighbours.old degrees.old waves.old counts.old ranks.old trail.old moved.old tally) }
{
    if let Err(refusal) = head_number(journal, journal.len()) {
        return refuse(refusal, tally);
    }
    let banks = number_at(journal, BANKS_PLACE);
    let opened = match open_all(
        neighbours, degrees, waves, counts, ranks, trail, moved, banks, tally,
    ) {
        Ok(opened) => opened,
        Err(refusal) => return refuse(refusal, tally),
    };
    enter_fields(
        journal,
        FIRST_BYTES,
        neighbours,
        degrees,
        waves,
        counts,
        ranks,
        trail,
        moved,
        opened,
    )
}
