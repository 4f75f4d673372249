// Cells put at the front of a slice.
ghost use Rattle.std.specs.Prelude.{◌≡◌, ◌≤◌, length};
ghost use Rattle.memory.specs.Cells.{over};

// Puts these cells at the front of a slice.
pub fn put_front(slice: &mut [u16], cells: &[u16])
    requires { length cells.now ≤ length slice.old }
    ensures { slice.new ≡ over cells.now slice.old }
{
    slice[..cells.len()].copy_from_slice(cells);
}
