// The banks of a queue: put in, taken out, the earliest first.
ghost use Rattle.std.specs.Prelude.{List, ℕ};
ghost use Rattle.rule.specs.Graph.{Graph};
ghost use Rattle.queue.specs.Queue.{Queue, Keyed, Enqueuable, Enqueued, TellsEmpty, Waiting, Dequeued};
ghost use Rattle.queue.specs.inner.Words.{Head};
ghost use Rattle.queue.specs.inner.Ties.{FirstPlace};

use crate::ties::first_of_degree;
use crate::words::{
    BANK_WORDS, BIT_WORDS, BY_RANK, DEGREE_WORDS, PLACED, PLACES, WORD_BITS, WORDS, clear_bit,
    first_summary, set_bit,
};
use rule::{Bank, MOST_CLASHES};

// If `put`, puts v, which has this degree, into the queue.
pub fn enqueue(queue: &mut [u64; WORDS], v: Bank, degree: u16, put: bool)
    requires { (G : Graph) × Enqueuable G queue.old v.0 degree }
    ensures { (G : Graph) → Enqueuable G queue.old v.0 degree
        → Enqueued G queue.old queue.new v.0 put }
{
    let place = queue[PLACES + usize::from(v.0)] as usize;
    let word = usize::from(MOST_CLASHES - degree) * DEGREE_WORDS + place / WORD_BITS;
    set_bit(queue, word, place % WORD_BITS, put);
    set_bit(queue, BANK_WORDS + word / WORD_BITS, word % WORD_BITS, put);
}

// Whether no bank waits.
pub fn is_empty(queue: &[u64; WORDS]) -> bool
    ensures { (G : Graph) → Keyed G → Queue G queue.now → TellsEmpty G queue.now result }
{
    first_summary(queue) == BIT_WORDS
}

// The first word in which a bank waits, where some bank waits.
fn first_word(queue: &[u64; WORDS]) -> usize
    requires { (G : Graph) × (rs : List ℕ) × Waiting G rs queue.now }
    ensures { Head queue.now result }
{
    let at = first_summary(queue);
    let marks = queue[at];
    (at - BANK_WORDS) * WORD_BITS + marks.trailing_zeros() as usize
}

// The place of the earliest bank, from the first word in which a bank waits. Where the places go by rank it is the lowest.
fn first_place(ranks: &[u16], queue: &[u64; WORDS], word: usize) -> usize
    requires waiting { (G : Graph) × Waiting G ranks.now queue.now }
    requires head { Head queue.now word }
    ensures { (G : Graph) → Waiting G ranks.now queue.now → FirstPlace G queue.now word result }
{
    if queue[BY_RANK] == 0 {
        return first_of_degree(ranks, queue, word);
    }
    word % DEGREE_WORDS * WORD_BITS + queue[word].trailing_zeros() as usize
}

// Takes the earliest bank out of the queue, where some bank waits.
pub fn dequeue(ranks: &[u16], queue: &mut [u64; WORDS]) -> Bank
    requires { (G : Graph) × Waiting G ranks.now queue.old }
    ensures { (G : Graph) → Waiting G ranks.now queue.old
        → Dequeued G queue.old queue.new result.0 }
{
    let head = first_word(queue);
    let place = first_place(ranks, queue, head);
    let bank = queue[PLACED + place] as u16;
    let word = head / DEGREE_WORDS * DEGREE_WORDS + place / WORD_BITS;
    clear_bit(queue, word, place % WORD_BITS, true);
    let left = queue[word];
    clear_bit(
        queue,
        BANK_WORDS + word / WORD_BITS,
        word % WORD_BITS,
        left == 0,
    );
    Bank(bank)
}
