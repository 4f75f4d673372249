// Reading a tally from its cells, and putting tallies and results into theirs.
ghost use Rattle.std.specs.Prelude.{[], ◌∷◌, ◌≡◌, ◌≤◌, length};
ghost use Rattle.rule.specs.Refusals.{number_in, value_or};
ghost use Rattle.memory.specs.Cells.{over};
ghost use Rattle.c_cells.specs.CellMemory.{tally_size, tally_in, tally_cells, short_number};
ghost use Rattle.c_cells.specs.inner.Enough.{Enough};

use memory::{Tally, put_front};
use rule::Refusal;

// The cells of a tally slice: banks, clashes, waves, cap.
const TALLY_CELLS: usize = 4;

// 2 if a tally slice of so many cells is short, or a result slice of so many has fewer than the call needs; else 0.
#[tactic(auto, unfolding(crate::specs::CellMemory::short_number, planner::specs::Questions::first_no))]
pub fn room(tally: usize, res: usize, needed: usize) -> u16
    ensures number { result ≡ short_number needed tally res }
    ensures enough { Enough needed tally res result }
{
    if tally < TALLY_CELLS || res < needed {
        2
    } else {
        0
    }
}

// The tally in the front cells.
pub fn tally_in(cells: &[u16]) -> Tally
    requires { tally_size ≤ length cells.now }
    ensures { result ≡ tally_in cells.now }
{
    Tally {
        banks: cells[0],
        clashes: cells[1],
        waves: cells[2],
        cap: cells[3],
    }
}

// Puts a tally into the front cells.
pub fn put_tally(cells: &mut [u16], tally: Tally)
    requires { tally_size ≤ length cells.old }
    ensures { cells.new ≡ over (tally_cells tally) cells.old }
{
    put_front(cells, &[tally.banks, tally.clashes, tally.waves, tally.cap]);
}

// Puts the tally and the results that a call leaves at the fronts of their slices.
pub fn put_answer(tally: &mut [u16], res: &mut [u16], after: Tally, results: &[u16])
    requires { (tally_size ≤ length tally.old) × (length results.now ≤ length res.old) }
    ensures tally { tally.new ≡ over (tally_cells after) tally.old }
    ensures res { res.new ≡ over results.now res.old }
{
    put_tally(tally, after);
    put_front(res, results);
}

// Puts the one result of a call at the front, or 0 where it is refused. Answers 0, or the refusal's number.
pub fn put_result(res: &mut [u16], done: Result<u16, Refusal>) -> u16
    requires { 1 ≤ length res.old }
    ensures number { result ≡ number_in done }
    ensures res { res.new ≡ over (value_or done 0 ∷ []) res.old }
{
    match done {
        Ok(answer) => {
            put_front(res, &[answer]);
            0
        }
        Err(refusal) => {
            put_front(res, &[0]);
            u16::from(refusal)
        }
    }
}
