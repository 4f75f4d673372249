// Why a sheet is refused.
ghost use Rattle.std.specs.Prelude.{◌≡◌};
ghost use Rattle.sheet_reader.specs.declared.refusal.SheetRefusal.TheVariants.{Asked};

use rule::{Bank, Refusal};

// What is wrong with the memory or with the sheet.
#[derive(Clone, Copy, PartialEq, Eq)]
pub enum SheetRefusal {
    // The memory holds no plan: 1 to 3.
    Asked(Refusal),
    // The bytes are no sheet of the plan: 26, and the line at fault, from 1.
    NoSheet { line: u16 },
    // Two clashing banks are in one wave, the lowest first bank, then the lowest second: 27.
    Clash { first: Bank, second: Bank },
    // The sheet has more waves than the plan: 27.
    ManyWaves,
}

impl From<Refusal> for SheetRefusal {
    ghost from_gives = { λ refusal gives. gives ≡ Asked refusal };

    fn from(refusal: Refusal) -> SheetRefusal {
        SheetRefusal::Asked(refusal)
    }
}
