// Operator CC of 000 (definition 4.7; CollectColor in algorithm 2): collects the colours of a bank's earlier neighbours. They stand in Counts, the
// index of section 5.1, which spares the walk over the neighbours.
ghost use Rattle.std.specs.Prelude.{List, ℕ, ◌+◌, ◌*◌, ◌<◌, ◌≤◌, length};
ghost use Rattle.rule.specs.Graph.{Graph};
ghost use Rattle.recolouring.specs.Recolouring.{Indexed, Collects};

use rule::{Bank, COUNT_CELLS};

// The waves that the earlier neighbours of b hold, whatever the clashes and stored waves that Counts are the index of. Wave c is one of them if
// cell c of the part is not 0.
pub fn collect_colours(counts: &[u16], b: Bank) -> &[u16]
    requires { b.0 * 24 + 24 ≤ length counts.now }
    ensures { (G : Graph) → (ws : List ℕ) → Indexed G ws counts.now → b.0 < G.banks
        → Collects result.now G ws b.0 }
{
    let start = usize::from(b.0) * COUNT_CELLS;
    &counts[start..start + COUNT_CELLS]
}
