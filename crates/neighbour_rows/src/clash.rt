// A clash in the rows and degrees of its two banks: a bank's row is the part of 23 cells that starts at 23 times its number.
ghost use Rattle.neighbour_rows.specs.inner.Rows.{NeighbourReady, NeighbourChanged};
ghost use Rattle.neighbour_rows.specs.Rewritten.{Changeable, ChangesClash};

use crate::row::change_row;
use rule::{Bank, Kind, ROW_CELLS};

// The degrees of the two banks of an edit, before it.
#[derive(Clone, Copy)]
pub struct Degrees {
    pub a: u16,
    pub b: u16,
}

// Gives b the neighbour v or takes it, in its row and its degree. Answers the degree that it had.
fn change_neighbour(
    kind: Kind,
    neighbours: &mut [u16],
    degrees: &mut [u16],
    b: Bank,
    v: Bank,
) -> u16
    requires { NeighbourReady kind neighbours.old degrees.old b.0 v.0 }
    ensures { NeighbourChanged kind neighbours.old degrees.old neighbours.new degrees.new b.0 v.0 result }
{
    let at = usize::from(b.0);
    let start = at * ROW_CELLS;
    let end = start + ROW_CELLS;
    let degree = degrees[at];
    degrees[at] = change_row(kind, &mut neighbours[start..end], degree, v);
    degree
}

// Gives each of a and b the other as a neighbour, or takes it. Answers the degrees that they had.
pub fn change_clash(
    kind: Kind,
    neighbours: &mut [u16],
    degrees: &mut [u16],
    a: Bank,
    b: Bank,
) -> Degrees
    requires { Changeable kind neighbours.old degrees.old a.0 b.0 }
    ensures { ChangesClash kind neighbours.old degrees.old neighbours.new degrees.new a.0 b.0 result }
{
    let old_a = change_neighbour(kind, neighbours, degrees, a, b);
    let old_b = change_neighbour(kind, neighbours, degrees, b, a);
    Degrees { a: old_a, b: old_b }
}
