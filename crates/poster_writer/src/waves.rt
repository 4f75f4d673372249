// The waves of a plan: the banks of each, ascending, and the lines that they take.
ghost use Rattle.std.specs.Prelude.{cond, [], ◌∷◌, ◌≡◌, ◌+◌, ◌*◌, ◌≤◌, ◌<◌, eqb, length};
ghost use Rattle.text.specs.Places.{Room, Puts};
ghost use Rattle.wave_lines.specs.inner.Cells.{members_of};
ghost use Rattle.poster_lines.specs.inner.Lines.{lines_with};
ghost use Rattle.poster_writer.specs.inner.Cells.{poster_wave, poster_waves, cell_lines};

use poster_lines::{lines_for, put_wave};
use rule::{Bank, MOST_BANKS, Wave};

// Bank b, whose wave is w, if it is one of wave c.
fn put_member(banks: &mut [u16], at: usize, w: Wave, c: Wave, b: Bank) -> usize
    requires { at < length banks.old }
    ensures { Puts (cond (eqb w.0 c.0) (b.0 ∷ []) []) at banks.old result banks.new }
{
    if w != c {
        return at;
    }
    banks[at] = b.0;
    at + 1
}

// The banks of wave c, ascending, of n banks in all, at the front of `banks`. Over the bank numbers, which are what is put.
fn gather(banks: &mut [u16], waves: &[u16], n: u16, c: Wave) -> usize
    requires { (n ≤ length waves.now) × (n ≤ length banks.old) }
    ensures { Puts (members_of waves.now c.0 n) 0 banks.old result banks.new }
{
    let mut next = 0;
    for b in 0..n {
        next = put_member(banks, next, Wave(waves[usize::from(b)]), c, Bank(b));
    }
    next
}

// How many lines wave c takes.
fn count_wave(waves: &[u16], n: u16, c: Wave) -> usize
    requires { (n ≤ 1024) × (n ≤ length waves.now) }
    ensures { (result ≡ length (lines_with c.0 (members_of waves.now c.0 n))) × (result ≤ 147) }
{
    let mut banks = [0u16; MOST_BANKS];
    lines_for(gather(&mut banks, waves, n, c))
}

// How many lines the first k waves take.
pub fn count_lines(waves: &[u16], n: u16, k: u16) -> usize
    requires { (n ≤ 1024) × (k ≤ 24) × (n ≤ length waves.now) }
    ensures { (result ≡ length (cell_lines waves.now n k)) × (result ≤ 147 * k) }
{
    // No `sum`: the bound of 147 lines a wave is kept by the loop.
    let mut lines = 0;
    for c in 0..k {
        lines += count_wave(waves, n, Wave(c));
    }
    lines
}

// The lines of wave c.
fn put_wave_of(out: &mut [u8], at: usize, waves: &[u16], n: u16, c: Wave) -> usize
    requires { (c.0 < 24) × (n ≤ 1024) × (n ≤ length waves.now) × Room (poster_wave waves.now n c.0) at out.old }
    ensures { Puts (poster_wave waves.now n c.0) at out.old result out.new }
{
    let mut banks = [0u16; MOST_BANKS];
    let count = gather(&mut banks, waves, n, c);
    put_wave(out, at, c, &banks[..count])
}

// The lines of the first k waves, at the front.
pub fn put_waves(out: &mut [u8], waves: &[u16], n: u16, k: u16) -> usize
    requires { (n ≤ 1024) × (k ≤ 24) × (n ≤ length waves.now) × Room (poster_waves waves.now n k) 0 out.old }
    ensures { Puts (poster_waves waves.now n k) 0 out.old result out.new }
{
    let mut next = 0;
    for c in 0..k {
        next = put_wave_of(out, next, waves, n, Wave(c));
    }
    next
}
