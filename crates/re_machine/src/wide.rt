//! Sets of up to 1,024 letters.

ghost use Rattle.std.specs.Prelude.{◌≡◌, ◌<◌, ◌^◌, ℕ, length, slice_index, bit_and, bit_or, IfSome, IfNone};
ghost use Rattle.re_sets.specs.Tables.{take_away};
ghost use Rattle.re_machine.specs.Wides.{value_of, IsEach};

use crate::set::LetterSet;

/// A set of up to 1,024 letters, 64 in each word, the lowest word first.
#[derive(Clone, Copy)]
pub struct Wide {
    words: [u64; 16],
}

// The letters of one set or the other.
fn or_words(x: &[u64; 16], y: &[u64; 16]) -> [u64; 16]
    ensures x_len { length x.now ≡ 16 }
    ensures y_len { length y.now ≡ 16 }
    ensures len { length result ≡ 16 }
    ensures each { IsEach bit_or x.now y.now result }
{
    let mut all = [0u64; 16];
    for k in 0..16 {
        all[k] = x[k] | y[k];
    }
    all
}

// The letters of both sets.
fn and_words(x: &[u64; 16], y: &[u64; 16]) -> [u64; 16]
    ensures x_len { length x.now ≡ 16 }
    ensures y_len { length y.now ≡ 16 }
    ensures len { length result ≡ 16 }
    ensures each { IsEach bit_and x.now y.now result }
{
    let mut all = [0u64; 16];
    for k in 0..16 {
        all[k] = x[k] & y[k];
    }
    all
}

// The letters of the one set that aren't in the other.
fn minus_words(x: &[u64; 16], y: &[u64; 16]) -> [u64; 16]
    ensures x_len { length x.now ≡ 16 }
    ensures y_len { length y.now ≡ 16 }
    ensures len { length result ≡ 16 }
    ensures each { IsEach take_away x.now y.now result }
{
    let mut all = [0u64; 16];
    for k in 0..16 {
        all[k] = x[k] ^ (x[k] & y[k]);
    }
    all
}

// The word of a number.
fn word_at(words: &[u64; 16], k: usize) -> u64
    requires { k < 16 }
    ensures len { length words.now ≡ 16 }
    ensures word { result ≡ slice_index words.now k }
{
    words[k]
}

// The first word that has a letter.
fn first_word(words: &[u64; 16]) -> Option<usize>
    ensures len { length words.now ≡ 16 }
    ensures some { IfSome result (λ k. (k < 16) × (slice_index words.now k < 2 ^ 64)
        × ¬ (slice_index words.now k ≡ 0)) }
    ensures none { IfNone result ((k : ℕ) → k < 16 → slice_index words.now k ≡ 0) }
{
    for k in 0..16 {
        let word = word_at(words, k);
        if word != 0 {
            return Some(k);
        }
    }
    None
}

impl LetterSet for Wide {
    ghost use Rattle.re_machine.specs.Wides.{value_of};

    ghost SIZE = { 1024 };

    ghost bits = { λ set. value_of set.words };

    const SIZE: usize = 1024;

    fn none() -> Wide {
        Wide { words: [0; 16] }
    }

    fn one(n: usize) -> Wide {
        let mut words = [0u64; 16];
        words[n / 64] = 1 << (n % 64);
        Wide { words }
    }

    fn is_none(self) -> bool {
        first_word(&self.words).is_none()
    }

    fn union(self, other: Wide) -> Wide {
        Wide {
            words: or_words(&self.words, &other.words),
        }
    }

    fn both(self, other: Wide) -> Wide {
        Wide {
            words: and_words(&self.words, &other.words),
        }
    }

    fn minus(self, other: Wide) -> Wide {
        Wide {
            words: minus_words(&self.words, &other.words),
        }
    }

    fn lowest(self) -> Option<usize> {
        match first_word(&self.words) {
            Some(k) => {
                let word = word_at(&self.words, k);
                Some(64 * k + word.trailing_zeros() as usize)
            }
            None => None,
        }
    }

    fn without(self, n: usize) -> Wide {
        let mut words = self.words;
        words[n / 64] = word_at(&self.words, n / 64) & !(1 << (n % 64));
        Wide { words }
    }
}
