// The pass over the rows: two clashing banks in one wave.
ghost use Rattle.std.specs.Prelude.{◌≡◌, false, ◌≤◌, ◌<◌, MatchOption, length};
ghost use Rattle.memory.specs.inner.View.{Rowed};
ghost use Rattle.sheet_parser.specs.inner.Lines.{wave_in};
ghost use Rattle.sheet_reader.specs.Calls.{has_clash, any_clash};
ghost use Rattle.sheet_reader.specs.inner.Rows.{rows_in, PartnerOf, PairOf};

use rule::{Bank, ROW_CELLS};

// The lowest bank that clashes with bank b and stands in its wave.
fn find_partner(neighbours: &[u16], degrees: &[u16], cells: &[u16], n: u16, b: Bank) -> Option<Bank>
    requires rowed { Rowed (rows_in n neighbours.now) neighbours.now degrees.now }
    requires cells_for_all { n ≤ length cells.now }
    requires is_bank { b.0 < n }
    ensures { MatchOption result (has_clash (rows_in n neighbours.now) (wave_in cells.now) b.0 ≡ false)
        (λ v. PartnerOf (rows_in n neighbours.now) (wave_in cells.now) b.0 v.0) }
{
    let at = usize::from(b.0);
    let start = at * ROW_CELLS;
    let row = &neighbours[start..start + usize::from(degrees[at])];
    let wave = cells[at];
    for &v in row {
        if cells[usize::from(v)] == wave {
            return Some(Bank(v));
        }
    }
    None
}

// Two clashing banks in one wave, of all n banks: the lowest first bank, then the lowest second.
pub fn find_clash(
    neighbours: &[u16],
    degrees: &[u16],
    cells: &[u16],
    n: u16,
) -> Option<(Bank, Bank)>
    requires rowed { Rowed (rows_in n neighbours.now) neighbours.now degrees.now }
    requires cells_for_all { n ≤ length cells.now }
    ensures { MatchOption result (any_clash (rows_in n neighbours.now) (wave_in cells.now) ≡ false)
        (λ pair. PairOf (rows_in n neighbours.now) (wave_in cells.now) pair.0.0 pair.1.0) }
{
    for b in 0..n {
        if let Some(second) = find_partner(neighbours, degrees, cells, n, Bank(b)) {
            return Some((Bank(b), second));
        }
    }
    None
}
