// The highest wave in use, kept up from step to step: the banks are looked through again only if one left that wave and none came there since.
ghost use Rattle.std.specs.Prelude.{◌<◌};
ghost use Rattle.recolouring.specs.inner.Tops.{KeepsTop};

use rule::Wave;

// Every wave is below `most`. A bank stands in the highest one below it, unless `left`: then perhaps none does. No Option: `most` bounds the waves
// either way.
#[derive(Clone, Copy)]
pub struct Highest {
    pub most: u16,
    pub left: bool,
}

// The same after a bank went from wave `old` to wave `new`, or kept its wave.
pub fn highest_after(top: Highest, old: Wave, new: Wave) -> Highest
    requires bound { old.0 < 24 }
    requires bound_2 { new.0 < 24 }
    ensures { KeepsTop top old.0 new.0 result }
{
    let above = new.0 + 1;
    if top.most <= above {
        Highest {
            most: above,
            left: false,
        }
    } else if old.0 + 1 == top.most {
        Highest { left: true, ..top }
    } else {
        top
    }
}
