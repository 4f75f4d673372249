// What is counted from the cells: Counts of one bank, and the waves.
ghost use Rattle.std.specs.Prelude.{◌≡◌, ℕ, ◌≤◌, ◌<◌, length, get_or};
ghost use Rattle.memory.specs.inner.Counts.{CountedTo, Countable, most_of};

use crate::order::is_earlier;
use rule::{Bank, ROW_CELLS};

// Counts the earlier neighbours of b by their waves into the 24 cells of a row of Counts: 1 or 0 is added, so that the
// test is no branch.
pub fn count_earlier(
    neighbours: &[u16],
    degrees: &[u16],
    ranks: &[u16],
    waves: &[u16],
    row: &mut [u16],
    banks: u16,
    b: Bank,
)
    requires countable { Countable neighbours.now degrees.now ranks.now waves.now banks b.0 }
    requires row_len { length row.old ≡ 24 }
    ensures { CountedTo neighbours.now degrees.now ranks.now waves.now
        row.new b.0 (get_or degrees.now b.0 0) }
{
    row.fill(0);
    let at = b.0 as usize;
    let start = at * ROW_CELLS;
    let degree = degrees[at] as usize;
    for v in &neighbours[start..start + degree] {
        let wave = waves[*v as usize] as usize;
        row[wave] += u16::from(is_earlier(degrees, ranks, Bank(*v), b));
    }
}

// The highest of the first waves plus 1, or 0 if there is no bank.
pub fn wave_count(waves: &[u16], banks: u16) -> u16
    requires banks_in_bounds { banks ≤ length waves.now }
    requires by_index { (x : ℕ) → x < banks → get_or waves.now x 0 < 24 }
    ensures { result ≡ most_of waves.now banks }
{
    let mut most: u16 = 0;
    for wave in &waves[..banks as usize] {
        most = most.max(*wave + 1);
    }
    most
}
