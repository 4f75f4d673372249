// Cells put into a slice.
ghost use Rattle.std.specs.Prelude.{◌≡◌, ◌+◌, ◌≤◌, length};
ghost use Rattle.memory.specs.Cells.{over};
ghost use Rattle.shelf.specs.Shelf.{part};
ghost use Rattle.shelf.specs.inner.Copies.{Copied};

// Puts the first `size` cells of a slice into another at `at`, and answers the place after them.
pub fn put_cells(to: &mut [u16], at: usize, cells: &[u16], size: usize) -> usize
    requires { (size ≤ length cells.now) × (at + size ≤ length to.old) }
    ensures { Copied cells.now size at to.old result to.new }
{
    let next = at + size;
    to[at..next].copy_from_slice(&cells[..size]);
    next
}

// Puts `size` cells of a place, from `start` on, to the front of a slice.
pub fn put_part(to: &mut [u16], place: &[u16], start: usize, size: usize)
    requires { (size ≤ length to.old) × (start + size ≤ length place.now) }
    ensures { to.new ≡ over (part start size place.now) to.old }
{
    put_cells(to, 0, &place[start..], size);
}
