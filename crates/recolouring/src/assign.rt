// Operator AC of 000 (definition 4.8; AssignColor in algorithm 2): assigns a bank the smallest colour that was not collected.
ghost use Rattle.std.specs.Prelude.{◌≡◌, ◌<◌, length};
ghost use Rattle.rule.specs.Wave.{lowest_free};
ghost use Rattle.recolouring.specs.Recolouring.{waves_in, Assigns};

use rule::{Bank, Wave};

// The lowest wave that was not collected. One of the 24 was not. Each of the 24 is a bit, so that no branch depends on which it is.
fn lowest_free(colours: &[u16]) -> Wave
    requires colours_bound { lowest_free (waves_in colours.now) < 24 }
    requires colours_len { length colours.now ≡ 24 }
    ensures { result.0 ≡ lowest_free (waves_in colours.now) }
{
    let mut free: u32 = 0;
    for (c, count) in colours.iter().enumerate() {
        free |= u32::from(*count == 0) << c;
    }
    Wave(free.trailing_zeros() as u16)
}

// Gives b the lowest wave that was not collected. Answers whether b had another one.
pub fn assign_colour(waves: &mut [u16], b: Bank, colours: &[u16]) -> bool
    requires b_in_bounds { b.0 < length waves.old }
    requires colours_bound { lowest_free (waves_in colours.now) < 24 }
    requires colours_len { length colours.now ≡ 24 }
    ensures { Assigns colours.now waves.old waves.new b.0 result }
{
    let new = lowest_free(colours);
    let at = usize::from(b.0);
    let changed = waves[at] != new.0;
    waves[at] = new.0;
    changed
}
