// The questions about a journal's length and its bytes. Each function gives the refusal of the first no.
ghost use Rattle.std.specs.Prelude.{◌≡◌};
ghost use Rattle.rule.specs.Refusals.{number_in};
ghost use Rattle.journal_fields.specs.Numbers.{space_number, head_number};

use crate::field::has_first;
use rule::Refusal;
use text::MOST_BYTES;

// Whether there is space for `needed` bytes, in the slice and in a journal.
#[tactic(auto, unfolding(crate::specs::Numbers::space_number, planner::specs::Questions::first_no))]
pub fn space_number(journal: &[u8], needed: usize) -> Result<(), Refusal>
    ensures { number_in result ≡ space_number needed journal.now }
{
    if needed > journal.len() || needed > MOST_BYTES {
        return Err(Refusal::NoSpace);
    }
    Ok(())
}

// Whether the journal's first `size` bytes are within bounds and start with its first field.
#[tactic(auto, unfolding(crate::specs::Numbers::head_number, planner::specs::Questions::first_no))]
pub fn head_number(journal: &[u8], size: usize) -> Result<(), Refusal>
    ensures { number_in result ≡ head_number size journal.now }
{
    if size > MOST_BYTES {
        return Err(Refusal::ManyBytes);
    }
    if size > journal.len() || !has_first(&journal[..size]) {
        return Err(Refusal::WrongFirstField);
    }
    Ok(())
}
