// Why a call is refused.
ghost use Rattle.std.specs.Prelude.{◌≡◌};
ghost use Rattle.rule.specs.Refusals.{number_of};

// The refusals, in the order of their numbers.
#[derive(Clone, Copy, PartialEq, Eq)]
pub enum Refusal {
    ManyBanks = 1,
    ShortMemory = 2,
    NoPlan = 3,
    FarBank = 4,
    SameBank = 5,
    ClashThere = 6,
    NoClash = 7,
    ManyClashes = 8,
    ManyBytes = 9,
    NoBankCount = 10,
    Unreadable = 11,
    ShortOutput = 12,
    WrongFirstField = 13,
    WrongField = 14,
    NoSpace = 15,
    WrongName = 16,
    NothingKept = 17,
    LateRank = 18,
    WrongCap = 19,
    OverCap = 20,
    Misnumbered = 21,
    LargePlan = 22,
    Retired = 23,
    WrongCrew = 24,
    NoCrew = 25,
    NoSheet = 26,
    ClashInWave = 27,
}

// The number that the papers give it.
impl From<Refusal> for u16 {
    ghost from_gives = { λ refusal number. number ≡ number_of refusal };

    fn from(refusal: Refusal) -> u16 {
        refusal as u16
    }
}
