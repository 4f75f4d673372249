// The foot of a text of a plan: `TOTAL n m`, the banks and the clashes of its tally.
ghost use Rattle.std.specs.Prelude.{◌≡◌, ◌+◌, ◌≤◌, length};
ghost use Rattle.text.specs.Numbers.{decimal};
ghost use Rattle.text.specs.Places.{Room, Puts};
ghost use Rattle.wave_lines.specs.Foot.{foot_text};

use memory::Tally;
use text::{put_byte, put_number, put_text};

// How many digits a number has.
pub fn digits(x: u16) -> usize
    ensures { (result ≡ length (decimal x)) × (result ≤ 5) }
{
    match x {
        0..=9 => 1,
        10..=99 => 2,
        100..=999 => 3,
        1000..=9999 => 4,
        _ => 5,
    }
}

// The bytes of the foot.
pub fn foot_length(tally: Tally) -> usize
    ensures { (result ≡ length (foot_text tally.banks tally.clashes)) × (result ≤ 17) }
{
    7 + digits(tally.banks) + digits(tally.clashes)
}

// `TOTAL n m`, at `at`; answers the place after it.
fn put_totals(out: &mut [u8], at: usize, n: u16, m: u16) -> usize
    requires { at + (7 + (length (decimal n) + length (decimal m))) ≤ length out.old }
    ensures { Puts (foot_text n m) at out.old result out.new }
{
    let banks = put_text(out, at, b"TOTAL ");
    let space = put_number(out, banks, n);
    let clashes = put_byte(out, space, b' ');
    put_number(out, clashes, m)
}

// The foot of a plan with this tally, at `at`; answers the place after it.
pub fn put_foot(out: &mut [u8], at: usize, tally: Tally) -> usize
    requires { Room (foot_text tally.banks tally.clashes) at out.old }
    ensures { Puts (foot_text tally.banks tally.clashes) at out.old result out.new }
{
    put_totals(out, at, tally.banks, tally.clashes)
}
