// An edit that is made and recorded, with the tally by value.
ghost use Rattle.std.specs.Prelude.{◌≡◌};
ghost use Rattle.rule.specs.Refusals.{number_in};
ghost use Rattle.memory.specs.Lent.{given, slices_in};
ghost use Rattle.memory.specs.Memory.{memory_of};
ghost use Rattle.journal_fields.specs.Fields.{numbered as isNumbered};
ghost use Rattle.journal_fields.specs.Numbers.{head_number};
ghost use Rattle.journal.specs.Calls.{no_record, later_in, next_space, record_result, recorded};
ghost use Rattle.journal.specs.inner.Recording.{Checked, AsksEntry, RecordedOf};

use capped_edits::edit_within;
use journal::{Recorded, RecordedEdit};
use journal_fields::{FIRST_BYTES, entry_bytes, head_number, is_numbered, put_entry, space_number};
use journal_reader::fields_number;
use memory::{PlanMemory, Tally};
use planner::{Answer, check_memory};
use rule::{Bank, Entry, Kind, Refusal};

// The questions about the journal and the memory: the refusal of the first no.
fn check_record(
    plan: PlanMemory,
    trail: &[u16],
    moved: &[u16],
    journal: &[u8],
    size: usize,
) -> Result<(), Refusal>
    ensures { Checked (memory_of (slices_in plan.entry) trail.now moved.now plan.entry.tally) size journal.now (number_in result) }
{
    head_number(journal, size)?;
    check_memory(plan, trail, moved)?;
    fields_number(&journal[FIRST_BYTES..size])
}

// Whether the journal's entries are numbered.
fn is_numbered_journal(journal: &[u8], size: usize) -> bool
    requires { head_number size journal.now ≡ 0 }
    ensures { result ≡ isNumbered (later_in size journal.now) }
{
    is_numbered(&journal[FIRST_BYTES..size])
}

// Whether there is space for an entry more.
fn next_space(journal: &[u8], size: usize) -> Result<(), Refusal>
    requires { head_number size journal.now ≡ 0 }
    ensures { number_in result ≡ next_space size journal.now }
{
    let numbered = is_numbered_journal(journal, size);
    space_number(journal, size + entry_bytes(numbered))
}

// A refused call: the number, counts and length 0, the tally as it was.
fn refuse(number: u16, tally: Tally) -> RecordedEdit
    ensures { (result.answer ≡ no_record number) × (result.tally ≡ tally) }
{
    RecordedEdit {
        answer: Recorded {
            number,
            moved: 0,
            trail: 0,
            length: 0,
        },
        tally,
    }
}

// Writes the entry of an accepted edit after the journal's first `size` bytes, in the form of its other entries and with the next number. The
// answer is that of the edit, and the new length.
fn record_entry(journal: &mut [u8], size: usize, entry: Entry, answer: Answer) -> Recorded
    requires { AsksEntry size journal.old }
    ensures { RecordedOf entry answer size journal.old result journal.new }
{
    let numbered = is_numbered_journal(journal, size);
    let number = (size - FIRST_BYTES) / entry_bytes(numbered) + 1;
    let next = put_entry(journal, size, numbered, number, entry);
    Recorded {
        number: 0,
        moved: answer.moved,
        trail: answer.trail,
        length: next as u16,
    }
}

// An edit that is recorded, with the tally by value: the core of the calls `add_recorded` and `strike_recorded` of `lent_calls`.
pub fn record_core(
    kind: Kind,
    neighbours: &mut [u16],
    degrees: &mut [u16],
    waves: &mut [u16],
    counts: &mut [u16],
    ranks: &[u16],
    trail: &mut [u16],
    moved: &mut [u16],
    tally: Tally,
    a: Bank,
    b: Bank,
    journal: &mut [u8],
    size: usize,
) -> RecordedEdit
    ensures { record_result result.answer (given neighbours.new degrees.new waves.new counts.new ranks.now trail.new moved.new result.tally) journal.new
        ≡ recorded kind a.0 b.0 (given neighbours.old degrees.old waves.old counts.old ranks.now trail.old moved.old tally) size journal.old }
{
    let plan = PlanMemory {
        neighbours,
        degrees,
        waves,
        counts,
        ranks,
        tally,
    };
    if let Err(refusal) = check_record(plan, trail, moved, journal, size) {
        return refuse(u16::from(refusal), tally);
    }
    let space = next_space(journal, size);
    let done = edit_within(
        kind, neighbours, degrees, waves, counts, ranks, trail, moved, tally, a, b, space,
    );
    if done.answer.number != 0 {
        return refuse(done.answer.number, tally);
    }
    let answer = record_entry(journal, size, Entry::Clash(kind, a, b), done.answer);
    RecordedEdit {
        answer,
        tally: done.tally,
    }
}
