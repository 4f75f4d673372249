// The numbers of a plan, and the rule order of its banks.
#![tactic(auto)]

mod refusal;

ghost use Rattle.std.specs.Prelude.{◌≡◌, ◌+◌, ◌*◌};
ghost use Rattle.rule.specs.Order.{earlier_by};

pub use refusal::Refusal;

// A bank's number: the vertex id of a graph.
#[derive(Clone, Copy, PartialEq, Eq, PartialOrd, Ord)]
pub struct Bank(pub u16);

// A wave's number: the colour of a vertex.
#[derive(Clone, Copy, PartialEq, Eq, PartialOrd, Ord)]
pub struct Wave(pub u16);

// The two kinds of edit of one clash.
#[derive(Clone, Copy, PartialEq, Eq)]
pub enum Kind {
    Adding,
    Striking,
}

// What an entry of a list or of a journal asks for: the edit of one clash, or a bank's rank.
#[derive(Clone, Copy, PartialEq, Eq)]
pub enum Entry {
    Clash(Kind, Bank, Bank),
    Rank(Bank, u16),
}

// The most banks of a plan.
pub const MOST_BANKS: usize = 1024;

// The cells of a bank's row in Neighbours: one for each clash that it can have.
pub const ROW_CELLS: usize = 23;

// The cells of a bank in Counts: one for each wave.
pub const COUNT_CELLS: usize = 24;

// The highest degree: the most clashes of a bank.
pub const MOST_CLASHES: u16 = 23;

// The most waves of a plan.
pub const MOST_WAVES: u16 = 24;

// The highest rank of a bank.
pub const MOST_RANK: u16 = 9999;

// What stands in the cells of a row that are left over.
pub const UNUSED: u16 = 65535;

// Three digits to the base 65,536, as one number.
fn digits(high: u16, middle: u16, low: u16) -> u64
    ensures { result ≡ high * 4294967296 + (middle * 65536 + low) }
{
    u64::from(high) * 4294967296 + (u64::from(middle) * 65536 + u64::from(low))
}

// Whether p is earlier than q: a larger degree; or the same degree and a smaller rank; or the same of both and a smaller number. One comparison
// and no branch: processors predict badly which of two banks is earlier.
pub fn earlier(degree_p: u16, rank_p: u16, p: Bank, degree_q: u16, rank_q: u16, q: Bank) -> bool
    ensures { result ≡ earlier_by degree_p rank_p p.0 degree_q rank_q q.0 }
{
    digits(degree_q, rank_p, p.0) < digits(degree_p, rank_q, q.0)
}
