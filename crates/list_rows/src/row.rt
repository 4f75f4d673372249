// The reader of a row.
ghost use Rattle.std.specs.Prelude.{◌≡◌};
ghost use Rattle.text.specs.Numbers.{number};
ghost use Rattle.list_rows.specs.Rows.{two_parts, three_parts, row_of, is_v2, retire, say_in};

use rule::{Bank, Entry, Kind};
use text::{find, read_number};

// The edit that a row asks for: one entry, or all clashes of a bank struck.
#[derive(Clone, Copy)]
pub enum Change {
    One(Entry),
    StrikeAll(Bank),
}

// What a row reads as. Retired is the D row of a list that starts with `V 2`.
#[derive(Clone, Copy)]
pub enum Row {
    Banks(u16),
    Edit(Change),
    Unreadable,
    Retired,
}

// Reads a row, without its line feed: two parts or three, with one space between them.
pub fn read_row(s: &[u8]) -> Row
    ensures { result ≡ row_of s.now }
{
    // By hand: a fourth part is refused as soon as its space is found, and no part is read before their number is known.
    let end = find(s, 0, b' ');
    if s.len() <= end {
        return Row::Unreadable;
    }
    let second = end + 1;
    let end2 = find(s, second, b' ');
    if s.len() <= end2 {
        return read_two_parts(&s[0..end], &s[second..end2]);
    }
    let third = end2 + 1;
    let end3 = find(s, third, b' ');
    if s.len() <= end3 {
        return read_three_parts(&s[0..end], &s[second..end2], &s[third..end3]);
    }
    Row::Unreadable
}

// Whether a row is `V 2`: three bytes and nothing else.
#[tactic(auto, unfolding(crate::specs::Rows::is_v2))]
pub fn is_v2(s: &[u8]) -> bool
    ensures { result ≡ is_v2 s.now }
{
    matches!(s, [b'V', b' ', b'2'])
}

// Reads a row of a list, which starts with `V 2` or not.
#[tactic(auto, unfolding(crate::specs::Rows::say_in))]
pub fn read_row_in(v2: bool, s: &[u8]) -> Row
    ensures { result ≡ say_in row_of v2 s.now }
{
    let row = read_row(s);
    if v2 { retired(row) } else { row }
}

// What a row says after `V 2`: D is not taken.
#[tactic(auto, unfolding(crate::specs::Rows::retire, crate::specs::Rows::retire_change))]
fn retired(row: Row) -> Row
    ensures { result ≡ retire row }
{
    match row {
        Row::Edit(Change::StrikeAll(_)) => Row::Retired,
        _ => row,
    }
}

// Reads `N n` and `D b`.
#[tactic(auto, unfolding(crate::specs::Rows::two_parts, crate::specs::Rows::is_byte))]
fn read_two_parts(head: &[u8], x: &[u8]) -> Row
    ensures { result ≡ two_parts head.now (number x.now) }
{
    let Some(value) = read_number(x) else {
        return Row::Unreadable;
    };
    match head {
        [b'N'] => Row::Banks(value),
        [b'D'] => Row::Edit(Change::StrikeAll(Bank(value))),
        _ => Row::Unreadable,
    }
}

// Reads `+ a b`, `- a b` and `K b r`.
#[tactic(auto, unfolding(crate::specs::Rows::three_parts, crate::specs::Rows::is_byte))]
fn read_three_parts(head: &[u8], x: &[u8], y: &[u8]) -> Row
    ensures { result ≡ three_parts head.now (number x.now) (number y.now) }
{
    let (Some(a), Some(b)) = (read_number(x), read_number(y)) else {
        return Row::Unreadable;
    };
    match head {
        [b'+'] => Row::Edit(Change::One(Entry::Clash(Kind::Adding, Bank(a), Bank(b)))),
        [b'-'] => Row::Edit(Change::One(Entry::Clash(Kind::Striking, Bank(a), Bank(b)))),
        [b'K'] => Row::Edit(Change::One(Entry::Rank(Bank(a), b))),
        _ => Row::Unreadable,
    }
}
