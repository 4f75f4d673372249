// How few couriers end in time.
ghost use Rattle.std.specs.Prelude.{◌≡◌};
ghost use Rattle.crews.specs.inner.Serving.{Sizes, least_by_sizes};

use crate::MOST_COURIERS;
use crate::serving::first_steps;
use rule::COUNT_CELLS;

// The least number of couriers, from 1 to 64, with which waves of these sizes end within the limit, or 0 where none does.
pub fn find_crew(sizes: &[u16; COUNT_CELLS], limit: u16) -> u16
    requires { Sizes sizes.now }
    ensures { result ≡ least_by_sizes sizes.now limit }
{
    for q in 1..=MOST_COURIERS {
        if first_steps(sizes, q).total <= limit {
            return q;
        }
    }
    0
}
