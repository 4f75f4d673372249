// The steps of a day, from the waves alone.
ghost use Rattle.std.specs.Prelude.{◌≡◌, ◌≤◌, length};
ghost use Rattle.memory.specs.Cells.{cells, over};
ghost use Rattle.cell_counts.specs.inner.Cells.{FewEach};
ghost use Rattle.crews.specs.inner.Serving.{Crew, Sizes, StartsTo, step_by, Servable, Served};

use cell_counts::count_cells;
use rule::COUNT_CELLS;

// How many steps come before each wave, and how many there are.
#[derive(Clone, Copy)]
pub struct Starts {
    pub cells: [u16; COUNT_CELLS],
    pub total: u16,
}

// The steps before each wave, from the sizes of the waves: a wave takes its size divided by q, rounded up.
pub fn first_steps(sizes: &[u16; COUNT_CELLS], q: u16) -> Starts
    requires sizes { Sizes sizes.now }
    requires crew { Crew q }
    ensures { StartsTo sizes.now q 24 result.cells result.total }
{
    let mut cells = [0u16; COUNT_CELLS];
    let mut total: u16 = 0;
    for (w, size) in sizes.iter().enumerate() {
        cells[w] = total;
        total += size.div_ceil(q);
    }
    Starts { cells, total }
}

// Stores the step of each bank, the lowest first. `seen` counts the banks of each wave that are served.
fn serve_banks(waves: &[u16], steps: &mut [u16], banks: u16, starts: &[u16; COUNT_CELLS], q: u16)
    requires { Servable waves.now steps.old starts.now banks q }
    ensures { steps.new ≡ over (cells banks (step_by waves.now starts.now q)) steps.old }
{
    let mut seen = [0u16; COUNT_CELLS];
    for b in 0..usize::from(banks) {
        let w = usize::from(waves[b]);
        steps[b] = starts[w] + seen[w] / q + 1;
        seen[w] += 1;
    }
}

// Stores the step of each bank, and answers how many steps there are.
pub fn serve_day(waves: &[u16], steps: &mut [u16], banks: u16, q: u16) -> u16
    requires few_each { FewEach waves.now banks }
    requires banks_in_bounds { banks ≤ length steps.old }
    requires crew { Crew q }
    ensures { Served waves.now banks q steps.old result steps.new }
{
    let sizes = count_cells(waves, banks);
    let starts = first_steps(&sizes, q);
    serve_banks(waves, steps, banks, &starts.cells, q);
    starts.total
}
