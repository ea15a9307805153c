//! Words kept three times, so that an upset in one copy of a word is voted away.

#![tactic(auto)]

ghost use Rattle.std.specs.Prelude.{◌≡◌, ◌<◌, length, take};
ghost use Rattle.memory.specs.Threefold.{majority, voted, voted_words, thrice, size, UpsetsHappen};
ghost use Rattle.memory.specs.Kept.{KeepsWords};

/// How many numbers of memory a word takes.
pub const PER_WORD: usize = 3;

/// Of three copies the number on which two agree, the first if none do.
pub fn vote(a: u64, b: u64, c: u64) -> u64
    ensures { result ≡ majority a b c }
{
    // Where b and c differ, a is either in a majority or the first of three that differ.
    if b == c { b } else { a }
}

/// The lent numbers in which N words are kept.
#[derive(Clone, Copy)]
pub struct Kept<'a, const N: usize> {
    numbers: &'a [u64],
    ghost whole: { length numbers.now ≡ size N },
}

impl<'a, const N: usize> Kept<'a, N> {
    pub fn new(numbers: &'a [u64]) -> Self
        requires { length numbers.now ≡ size N }
        ensures { result.numbers.now ≡ numbers.now }
    {
        Kept { numbers }
    }

    // Word k as two of its three copies have it.
    fn word(&self, k: usize) -> u64
        requires { k < N }
        ensures { result ≡ voted N self.now.numbers.now k }
    {
        vote(
            self.numbers[k],
            self.numbers[N + k],
            self.numbers[2 * N + k],
        )
    }

    /// Writes all words to an array of the caller's.
    pub fn read(&self, words: &mut [u64])
        requires { length words.old ≡ N }
        ensures { words.new ≡ voted_words N self.now.numbers.now }
    {
        for (k, word) in words.iter_mut().enumerate() {
            *word = self.word(k);
        }
    }
}

/// Keeps the words that stand first in memory: behind them it writes what guards them, their second and third copy.
pub fn keep<const N: usize>(memory: &mut [u64])
    requires { length memory.old ≡ size N }
    ensures { memory.new ≡ thrice (take N memory.old) }
{
    let (first, others) = memory.split_at_mut(N);
    let (second, third) = others.split_at_mut(N);
    second.copy_from_slice(first);
    third.copy_from_slice(first);
}

/// An upset in one copy of each word at most is voted away, and what was written is kept.
pub fn keeps_words()
    ensures { KeepsWords }
{}

/// There are such upsets, in every copy of every word.
pub fn upsets_happen()
    ensures { UpsetsHappen }
{}

#[cfg(test)]
mod tests {
    use super::*;

    #[test]
    fn two_of_three(rt: HostRuntime) {
        assert_eq!(rt; vote(7, 7, 9), 7);
        assert_eq!(rt; vote(9, 7, 7), 7);
        assert_eq!(rt; vote(7, 9, 7), 7);
        assert_eq!(rt; vote(7, 8, 9), 7);
    }
}
