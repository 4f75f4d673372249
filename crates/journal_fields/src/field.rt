// A journal's fields: a one-byte tag, a two-byte length and the value, low byte first.
ghost use Rattle.std.specs.Prelude.{◌++◌, ◌≡◌, ◌+◌, ◌≤◌, ◌<◌, length};
ghost use Rattle.text.specs.Places.{Puts};
ghost use Rattle.journal_fields.specs.Fields.{first_size, number_size, value_size, entry_size, kind_tag, number_at, has_first, numbered as isNumbered};
ghost use Rattle.journal_fields.specs.Fields.{two_bytes, field_bytes, first_bytes, number_bytes, entry_bytes};

use rule::{Entry, Kind};
use text::put_text;

// Why no entry stands at the front of the bytes after the first field.
#[derive(Clone, Copy, PartialEq, Eq)]
pub enum Fault {
    Wrong,
    Misnumbered,
    Short,
}

// The tags and the lengths of the values.
const FIRST_TAG: u8 = 0x4E;

pub const ADD_TAG: u8 = 0x2B;

pub const STRIKE_TAG: u8 = 0x2D;

pub const RANK_TAG: u8 = 0x4B;

const FIRST_VALUE: u8 = 2;

const PLAIN_VALUE: u8 = 4;

const NUMBERED_VALUE: u8 = 8;

// The bytes of a tag and a length.
pub const HEAD_BYTES: usize = 3;

// The bytes of the first field, and of an entry's without and with a number.
pub const FIRST_BYTES: usize = 5;

const PLAIN_BYTES: usize = 7;

pub const NUMBERED_BYTES: usize = 11;

// The number at places i and i + 1, low byte first.
#[tactic(auto, unfolding(crate::specs::Fields::number_at))]
pub fn number_at(bytes: &[u8], i: usize) -> u16
    requires { i + 1 < length bytes.now }
    ensures { result ≡ number_at i bytes.now }
{
    u16::from_le_bytes([bytes[i], bytes[i + 1]])
}

// Whether the first field is whole, with its tag and length right.
#[tactic(auto, unfolding(crate::specs::Fields::has_first))]
pub fn has_first(bytes: &[u8]) -> bool
    ensures { result ≡ has_first bytes.now }
{
    bytes.len() >= FIRST_BYTES
        && bytes[0] == FIRST_TAG
        && number_at(bytes, 1) == u16::from(FIRST_VALUE)
}

// The tag of an edit of this kind.
#[tactic(auto, unfolding(crate::specs::Fields::kind_tag))]
fn kind_tag(kind: Kind) -> u8
    ensures { result ≡ kind_tag kind }
{
    match kind {
        Kind::Adding => ADD_TAG,
        Kind::Striking => STRIKE_TAG,
    }
}

// The length of an entry's value.
pub fn value_bytes(numbered: bool) -> u8
    ensures { result ≡ value_size numbered }
{
    if numbered {
        NUMBERED_VALUE
    } else {
        PLAIN_VALUE
    }
}

// The bytes of an entry's field.
pub fn entry_bytes(numbered: bool) -> usize
    ensures { result ≡ entry_size numbered }
{
    if numbered {
        NUMBERED_BYTES
    } else {
        PLAIN_BYTES
    }
}

// Whether the entries of these bytes, those after the first field, are numbered: the length of the first tells.
#[tactic(auto, unfolding(crate::specs::Fields::numbered))]
pub fn is_numbered(bytes: &[u8]) -> bool
    ensures { result ≡ isNumbered bytes.now }
{
    bytes.len() < HEAD_BYTES || number_at(bytes, 1) != u16::from(PLAIN_VALUE)
}

// Writes the first field of n banks to the front, and answers the place after it.
#[tactic(auto, unfolding(crate::specs::Fields::first_bytes, crate::specs::Fields::field_bytes, crate::specs::Fields::two_bytes))]
pub fn put_first(journal: &mut [u8], n: u16) -> usize
    requires { first_size ≤ length journal.old }
    ensures { Puts (first_bytes n) 0 journal.old result journal.new }
{
    let [low, high] = n.to_le_bytes();
    put_text(journal, 0, &[FIRST_TAG, FIRST_VALUE, 0, low, high])
}

// Writes an edit number at `at`, where fields have one, and answers the place after it.
#[tactic(auto, unfolding(crate::specs::Fields::number_bytes, crate::specs::Fields::four_bytes, crate::specs::Fields::two_bytes))]
fn put_number(journal: &mut [u8], at: usize, numbered: bool, number: usize) -> usize
    requires { (at + number_size numbered ≤ length journal.old) × (number < 4294967296) }
    ensures { Puts (number_bytes numbered number) at journal.old result journal.new }
{
    if !numbered {
        return at;
    }
    put_text(journal, at, &(number as u32).to_le_bytes())
}

// Writes the field of entry `number`, of this tag and two numbers, at `at`, and answers the place after it.
fn put_numbers(
    journal: &mut [u8],
    at: usize,
    numbered: bool,
    number: usize,
    tag: u8,
    x: u16,
    y: u16,
) -> usize
    requires { (at + entry_size numbered ≤ length journal.old) × (number < 4294967296) }
    ensures { Puts (field_bytes tag (number_bytes numbered number ++ (two_bytes x ++ two_bytes y))) at journal.old result journal.new }
{
    let head = [tag, value_bytes(numbered), 0];
    let after_head = put_text(journal, at, &head);
    let after_number = put_number(journal, after_head, numbered, number);
    let [x_low, x_high] = x.to_le_bytes();
    let [y_low, y_high] = y.to_le_bytes();
    put_text(journal, after_number, &[x_low, x_high, y_low, y_high])
}

// Writes the field of entry `number` at `at`, and answers the place after it.
#[tactic(auto, unfolding(crate::specs::Fields::entry_bytes, crate::specs::Fields::tag_of, crate::specs::Fields::first_in, crate::specs::Fields::second_in))]
pub fn put_entry(
    journal: &mut [u8],
    at: usize,
    numbered: bool,
    number: usize,
    entry: Entry,
) -> usize
    requires { (at + entry_size numbered ≤ length journal.old) × (number < 4294967296) }
    ensures { Puts (entry_bytes numbered number entry) at journal.old result journal.new }
{
    match entry {
        Entry::Clash(kind, a, b) => put_numbers(
            journal,
            at,
            numbered,
            number,
            kind_tag(kind),
            a.0,
            b.0,
        ),
        Entry::Rank(bank, rank) => put_numbers(
            journal, at, numbered, number, RANK_TAG, bank.0, rank,
        ),
    }
}
