// The shelf's places, and question 5 of the shelf: the planner's own test on the parts of each used place.
ghost use Rattle.std.specs.Prelude.{◌≡◌, ◌≤◌, length};
ghost use Rattle.shelf.specs.Shelf.{place_size, shelf_size, tally_in, holds_in, place_right, shelf_right};

use memory::{PlanMemory, Tally};
use plan_test::holds_plan;
use rule::{COUNT_CELLS, ROW_CELLS};

// The cells of a place for each bank: its row, its Counts, its degree, its wave and its rank.
const BANK_CELLS: usize = 50;

// The other cells of a place: the used cell, and the tally with its cap.
const OTHER_CELLS: usize = 5;

// The cells of a tally in a place before the ranks; its cap stands after them, in the last cell.
pub const TALLY_CELLS: usize = 3;

// The used cell of a place that holds a plan.
const USED: u16 = 1;

// The cells of a place of so many banks.
pub fn place_size(banks: u16) -> usize
    ensures { result ≡ place_size banks }
{
    usize::from(banks) * BANK_CELLS + OTHER_CELLS
}

// The tally in a place of n banks.
pub fn tally_in(place: &[u16], n: usize) -> Tally
    requires { length place.now ≡ place_size n }
    ensures { result ≡ tally_in n place.now }
{
    let at = 1 + n * (ROW_CELLS + COUNT_CELLS + 2);
    let cap_at = at + TALLY_CELLS + n;
    Tally {
        banks: place[at],
        clashes: place[at + 1],
        waves: place[at + 2],
        cap: place[cap_at],
    }
}

// Whether a place holds a plan of so many banks, its tally included, under a cap that fits it.
fn holds_in(place: &[u16], banks: u16) -> bool
    requires { (banks ≤ 1024) × (length place.now ≡ place_size banks) }
    ensures { result ≡ holds_in banks place.now }
{
    let n = usize::from(banks);
    let tally = tally_in(place, n);
    if tally.banks != banks {
        return false;
    }
    let row = 1;
    let degree = row + n * ROW_CELLS;
    let wave = degree + n;
    let count = wave + n;
    let tally_at = count + n * COUNT_CELLS;
    let rank = tally_at + TALLY_CELLS;
    let end = rank + n;
    holds_plan(PlanMemory {
        neighbours: &place[row..degree],
        degrees: &place[degree..wave],
        waves: &place[wave..count],
        counts: &place[count..tally_at],
        ranks: &place[rank..end],
        tally,
    })
}

// Whether a place is unused, or used and holds a plan of so many banks.
fn place_right(place: &[u16], banks: u16) -> bool
    requires { (banks ≤ 1024) × (length place.now ≡ place_size banks) }
    ensures { result ≡ place_right banks place.now }
{
    let used = place[0];
    used == 0 || used == USED && holds_in(place, banks)
}

// Question 5 of a shelf that is long enough.
pub fn shelf_right(shelf: &[u16], banks: u16) -> bool
    requires { (banks ≤ 1024) × (shelf_size banks ≤ length shelf.now) }
    ensures { result ≡ shelf_right banks shelf.now }
{
    let morning = 0;
    let noon = place_size(banks);
    let close = noon + noon;
    let end = close + noon;
    place_right(&shelf[morning..noon], banks)
        && place_right(&shelf[noon..close], banks)
        && place_right(&shelf[close..end], banks)
}
