// Reads the fields after a journal's first: one, and all in turn.
ghost use Rattle.std.specs.Prelude.{◌≡◌, ◌+◌, ◌≤◌, length};
ghost use Rattle.journal_fields.specs.Fields.{head_size, number_size, entry_size, kind_of, is_entry_tag, is_entry, entry_of, entry_in, number_in};
ghost use Rattle.journal_fields.specs.Fields.{rank_fits, is_rank, whole_of, field_of, fields};
ghost use Rattle.journal_fields.specs.Numbers.{refusal as refusalOf, later_number};
ghost use Rattle.rule.specs.Refusals.{number_of, number_in as numberIn};

use journal_fields::{
    ADD_TAG, Fault, HEAD_BYTES, RANK_TAG, STRIKE_TAG, entry_bytes, is_numbered, number_at,
    value_bytes,
};
use rule::{Bank, Entry, Kind, MOST_RANK, Refusal};

// The bytes of an edit number.
const NUMBER_BYTES: usize = 4;

// The kind of an edit that has this tag.
#[tactic(auto, unfolding(journal_fields::specs::Fields::kind_of, journal_fields::specs::Fields::kind_tag))]
fn kind_of(tag: u8) -> Kind
    ensures { result ≡ kind_of tag }
{
    if tag == ADD_TAG {
        Kind::Adding
    } else {
        Kind::Striking
    }
}

// Whether a tag is an entry's.
#[tactic(auto, unfolding(journal_fields::specs::Fields::is_entry_tag, journal_fields::specs::Fields::kind_tag))]
fn is_entry_tag(tag: u8) -> bool
    ensures { result ≡ is_entry_tag tag }
{
    matches!(tag, ADD_TAG | STRIKE_TAG | RANK_TAG)
}

// Whether a tag and a length are an entry's.
#[tactic(auto, unfolding(journal_fields::specs::Fields::is_entry))]
fn is_entry(bytes: &[u8], numbered: bool) -> bool
    requires { head_size ≤ length bytes.now }
    ensures { result ≡ is_entry numbered bytes.now }
{
    is_entry_tag(bytes[0]) && number_at(bytes, 1) == u16::from(value_bytes(numbered))
}

// The entry of this tag and these two numbers.
#[tactic(auto, unfolding(journal_fields::specs::Fields::entry_of))]
fn entry_of(tag: u8, x: u16, y: u16) -> Entry
    ensures { result ≡ entry_of tag x y }
{
    if tag == RANK_TAG {
        Entry::Rank(Bank(x), y)
    } else {
        Entry::Clash(kind_of(tag), Bank(x), Bank(y))
    }
}

// The place of an entry's first number, after the edit number if there is one.
fn pair_place(numbered: bool) -> usize
    ensures { result ≡ head_size + number_size numbered }
{
    if numbered {
        HEAD_BYTES + NUMBER_BYTES
    } else {
        HEAD_BYTES
    }
}

// The entry of a whole field.
#[tactic(auto, unfolding(journal_fields::specs::Fields::entry_in))]
fn entry_in(bytes: &[u8], numbered: bool) -> Entry
    requires { entry_size numbered ≤ length bytes.now }
    ensures { result ≡ entry_in numbered bytes.now }
{
    let place = pair_place(numbered);
    let x = number_at(bytes, place);
    let y = number_at(bytes, place + 2);
    entry_of(bytes[0], x, y)
}

// The edit number of a whole field where `number` is due: fields without one have it by their place.
#[tactic(auto, unfolding(journal_fields::specs::Fields::number_in, journal_fields::specs::Fields::four_at, journal_fields::specs::Fields::number_at))]
fn number_in(bytes: &[u8], numbered: bool, number: usize) -> usize
    requires { entry_size numbered ≤ length bytes.now }
    ensures { result ≡ number_in numbered number bytes.now }
{
    if !numbered {
        return number;
    }
    let after_head = &bytes[HEAD_BYTES..];
    u32::from_le_bytes([after_head[0], after_head[1], after_head[2], after_head[3]]) as usize
}

// Whether an entry's rank, if it sets one, is within bounds.
#[tactic(auto, unfolding(journal_fields::specs::Fields::rank_fits))]
fn rank_fits(entry: Entry) -> bool
    ensures { result ≡ rank_fits entry }
{
    match entry {
        Entry::Clash(_, _, _) => true,
        Entry::Rank(_, rank) => rank <= MOST_RANK,
    }
}

// A whole field, by its entry and by whether its number is the next.
#[tactic(auto, unfolding(journal_fields::specs::Fields::whole_of))]
fn whole(entry: Entry, next: bool) -> Result<Entry, Fault>
    ensures { result ≡ whole_of next entry }
{
    if !rank_fits(entry) {
        Err(Fault::Wrong)
    } else if !next {
        Err(Fault::Misnumbered)
    } else {
        Ok(entry)
    }
}

// Reads what stands at the front of the bytes after the first field, where entry `number` is due.
#[tactic(auto, unfolding(journal_fields::specs::Fields::field_of))]
pub fn read_field(bytes: &[u8], numbered: bool, number: usize) -> Result<Entry, Fault>
    ensures { result ≡ field_of numbered number bytes.now }
{
    if bytes.len() < HEAD_BYTES {
        return Err(Fault::Short);
    }
    if !is_entry(bytes, numbered) {
        return Err(Fault::Wrong);
    }
    if bytes.len() < entry_bytes(numbered) {
        return Err(Fault::Short);
    }
    let entry = entry_in(bytes, numbered);
    whole(entry, number_in(bytes, numbered, number) == number)
}

// The refusal of a field that is no entry, as recording gives it.
#[tactic(auto, unfolding(journal_fields::specs::Numbers::refusal))]
pub fn refusal(fault: Fault) -> Refusal
    ensures { number_of result ≡ refusalOf fault }
{
    match fault {
        Fault::Wrong => Refusal::WrongField,
        Fault::Misnumbered => Refusal::Misnumbered,
        Fault::Short => Refusal::WrongField,
    }
}

// Whether an entry sets a rank.
#[tactic(auto, unfolding(journal_fields::specs::Fields::is_rank))]
fn is_rank(entry: Entry) -> bool
    ensures { result ≡ is_rank entry }
{
    matches!(entry, Entry::Rank(..))
}

// Whether the bytes after the first field are entries' fields, numbered in turn, no rank after an edit and nothing left over, or the refusal
// of the first no.
pub fn fields_number(bytes: &[u8]) -> Result<(), Refusal>
    ensures { numberIn result ≡ later_number (fields bytes.now) }
{
    let numbered = is_numbered(bytes);
    let mut begun = false;
    for (i, field) in bytes.chunks(entry_bytes(numbered)).enumerate() {
        let entry = match read_field(field, numbered, i + 1) {
            Ok(entry) => entry,
            Err(fault) => return Err(refusal(fault)),
        };
        let rank = is_rank(entry);
        if begun && rank {
            return Err(Refusal::LateRank);
        }
        // No rank after an edit: from here on one has come if this is one.
        begun = !rank;
    }
    Ok(())
}
