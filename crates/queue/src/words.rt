// One bit of one word of a queue.
ghost use Rattle.std.specs.Prelude.{◌||◌, not, T, get_or};
ghost use Rattle.queue.specs.Queue.{test_bit};
ghost use Rattle.queue.specs.inner.Words.{HasBit, Written, First};

// The words of the banks: those of the 24 degrees, 16 each, the highest degree first.
pub const BANK_WORDS: usize = 384;

// The words of bits: those of the banks, and a summary with a bit for each of them.
pub const BIT_WORDS: usize = 390;

// From here on: the place of each bank among those of its degree.
pub const PLACES: usize = 390;

// From here on: the bank of each place.
pub const PLACED: usize = 1414;

// The last word: 0 if the places are the banks' numbers, else they go by rank.
pub const BY_RANK: usize = 2438;

// The words of a queue.
pub const WORDS: usize = 2439;

// The bits of a word.
pub const WORD_BITS: usize = 64;

// The words of a degree: a bit for each of 1,024 places.
pub const DEGREE_WORDS: usize = 16;

// One more than what the summary can say of the words of a degree.
pub const DEGREE_MARKS: u64 = 65536;

// If `put`, sets bit `place` of a word. No branch: of a bank's neighbours about half are put. Apart from `clear_bit`, since one function of both
// would need to be told which is meant.
pub fn set_bit(queue: &mut [u64; WORDS], word: usize, place: usize, put: bool)
    requires { HasBit queue.old word place }
    ensures { Written queue.old queue.new word place
        (test_bit (get_or queue.old word 0) place || put) }
{
    queue[word] |= u64::from(put) << place;
}

// If `out`, clears bit `place` of a word, which is set.
pub fn clear_bit(queue: &mut [u64; WORDS], word: usize, place: usize, out: bool)
    requires has_bit { HasBit queue.old word place }
    requires is_set { T (test_bit (get_or queue.old word 0) place) }
    ensures { Written queue.old queue.new word place (not out) }
{
    queue[word] ^= u64::from(out) << place;
}

// The first word of the summary that is not 0, or the number of words of bits. No Option: a caller that knows that some bank waits would have to
// take it apart.
pub fn first_summary(queue: &[u64; WORDS]) -> usize
    ensures { First queue.now result }
{
    for i in BANK_WORDS..BIT_WORDS {
        if queue[i] != 0 {
            return i;
        }
    }
    BIT_WORDS
}
