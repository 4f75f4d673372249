// The first of the banks that wait in one degree, by rank and then by number, where the places are the banks' numbers.
ghost use Rattle.std.specs.Prelude.{◌≡◌, ◌<◌, length};
ghost use Rattle.rule.specs.Graph.{Graph};
ghost use Rattle.queue.specs.Queue.{Unranked, Waiting};
ghost use Rattle.queue.specs.inner.Words.{Head};
ghost use Rattle.queue.specs.inner.Ties.{key_of, Candidates, Least, FirstOfDegree};

use crate::words::{BANK_WORDS, DEGREE_MARKS, DEGREE_WORDS, WORD_BITS, WORDS};
use rule::MOST_BANKS;

// The key of bank x: of two banks of one degree, the one with the smaller key comes first.
fn key(ranks: &[u16], x: usize) -> usize
    requires { (x < 1024) × (x < length ranks.now) }
    ensures { result ≡ key_of ranks.now x }
{
    usize::from(ranks[x]) * MOST_BANKS + x
}

// The least of a key and those of the banks of a word.
fn least_in_word(ranks: &[u16], bits: u64, base: usize, so_far: usize) -> usize
    requires { Candidates ranks.now bits base }
    ensures { Least ranks.now bits base so_far result }
{
    let mut rest = bits;
    let mut least = so_far;
    // A while: the bits are taken off, the lowest first.
    while rest != 0 {
        let low = rest.trailing_zeros() as usize;
        least = least.min(key(ranks, base + low));
        rest &= rest - 1;
    }
    least
}

// The first bank of a degree, from the first word in which a bank waits. The summary leads to the other words. No rank is below 0: a bank of
// rank 0 ends the search.
pub fn first_of_degree(ranks: &[u16], queue: &[u64; WORDS], word: usize) -> usize
    requires waiting { (G : Graph) × Waiting G ranks.now queue.now }
    requires head { Head queue.now word }
    requires unranked { Unranked queue.now }
    ensures { FirstOfDegree ranks.now queue.now word result }
{
    let head = queue[word];
    let summary = queue[BANK_WORDS + word / WORD_BITS];
    let start = word / DEGREE_WORDS * DEGREE_WORDS;
    let mut least = key(
        ranks,
        word % DEGREE_WORDS * WORD_BITS + head.trailing_zeros() as usize,
    );
    let mut marks = (summary >> (start % WORD_BITS)) % DEGREE_MARKS;
    // A while: the marks are taken off, the lowest first.
    while marks != 0 {
        if least < MOST_BANKS {
            return least;
        }
        let i = marks.trailing_zeros() as usize;
        let bits = queue[start + i];
        least = least_in_word(ranks, bits, i * WORD_BITS, least);
        marks &= marks - 1;
    }
    least % MOST_BANKS
}
