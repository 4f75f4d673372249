// Why a row makes no edit, what a row leaves for the ranks after it, and the answer of a pass.
ghost use Rattle.std.specs.Prelude.{◌≡◌};
ghost use Rattle.rule.specs.Refusals.{number_of};
ghost use Rattle.list_pass.specs.inner.Steps.{change_begun, no_edit, ending};

use crate::Reading;
use entries::begun_by;
use list_rows::{Change, Row};
use rule::Refusal;

// Whether an edit has come, once this row has: a D row counts even if it strikes nothing.
#[tactic(auto, unfolding(crate::specs::inner::Steps::change_begun))]
pub fn begun_after(change: Change, begun: bool) -> bool
    ensures { result ≡ change_begun change begun }
{
    match change {
        Change::One(entry) => begun_by(entry, begun),
        Change::StrikeAll(_) => true,
    }
}

// Why a row makes no edit: it is none of the forms, or D in a V 2 list.
#[tactic(auto, unfolding(crate::specs::inner::Steps::no_edit))]
pub fn not_taken(row: Row) -> Refusal
    ensures { number_of result ≡ no_edit row }
{
    match row {
        Row::Retired => Refusal::Retired,
        _ => Refusal::Unreadable,
    }
}

// The answer of a pass whose last row has this number.
#[tactic(auto, unfolding(crate::specs::inner::Steps::ending))]
pub fn ended(number: u16, row: u16) -> Reading
    ensures { result ≡ ending number row }
{
    match number {
        0 => Reading { number: 0, row: 0 },
        _ => Reading { number, row },
    }
}
