ghost use Rattle.std.specs.Prelude.{◌≡◌, ℕ, ◌*◌, ◌^◌, ◌<◌, ◌≤◌, ◌↔◌, ◌⊎◌, ◌≢◌, IsTrue, length};
ghost use Rattle.sg_bits.specs.Bits.{IsSet, IsFull};

use crate::word::{lowest_from, ones_between};

/// How many bits a word has.
pub const WORD_BITS: usize = 64;

/// Sets the bits from `first` up to `end`, which is not one of them.
pub fn set(words: &mut [u64], first: usize, end: usize)
    requires few { 64 * length words.old < 2 ^ 64 }
    requires fits { end ≤ 64 * length words.old }
    ensures { (k : ℕ) → IsSet words.new k ↔ (IsSet words.old k ⊎ ((first ≤ k) × (k < end))) }
{
    let mut here = first;
    'words: while here < end {
        let word = here / WORD_BITS;
        let next = end.min((word + 1) * WORD_BITS);
        words[word] |= ones_between(here % WORD_BITS, next - word * WORD_BITS);
        here = next;
    }
}

/// The first bit at or after `from` that is set, or the number of bits where there is none.
pub fn next_set(words: &[u64], from: usize) -> usize
    requires few { 64 * length words.now < 2 ^ 64 }
    requires fits { from ≤ 64 * length words.now }
    ensures after { from ≤ result }
    ensures bound { result ≤ 64 * length words.now }
    ensures skipped { (k : ℕ) → from ≤ k → k < result → IsSet words.now k → ⊥ }
    ensures found { result < 64 * length words.now → IsSet words.now result }
{
    let bits = words.len() * WORD_BITS;
    let mut here = from;
    'words: while here < bits {
        let word = here / WORD_BITS;
        let bit = lowest_from(words[word], here % WORD_BITS);
        if bit < WORD_BITS {
            return word * WORD_BITS + bit;
        }
        here = (word + 1) * WORD_BITS;
    }
    bits
}

/// The first bit at or after `from` that is not set, or the number of bits where each is set.
pub fn next_clear(words: &[u64], from: usize) -> usize
    requires few { 64 * length words.now < 2 ^ 64 }
    requires fits { from ≤ 64 * length words.now }
    ensures after { from ≤ result }
    ensures bound { result ≤ 64 * length words.now }
    ensures skipped { (k : ℕ) → from ≤ k → k < result → IsSet words.now k }
    ensures found { IsSet words.now result → ⊥ }
{
    let bits = words.len() * WORD_BITS;
    let mut here = from;
    'words: while here < bits {
        let word = here / WORD_BITS;
        let bit = lowest_from(!words[word], here % WORD_BITS);
        if bit < WORD_BITS {
            return word * WORD_BITS + bit;
        }
        here = (word + 1) * WORD_BITS;
    }
    bits
}

/// Clears one bit.
pub fn clear(words: &mut [u64], at: usize)
    requires { at < 64 * length words.old }
    ensures { (k : ℕ) → IsSet words.new k ↔ (IsSet words.old k × (k ≢ at)) }
{
    let bit = at % WORD_BITS;
    words[at / WORD_BITS] &= !ones_between(bit, bit + 1);
}

/// Whether one bit is set.
pub fn is_set(words: &[u64], at: usize) -> bool
    requires { at < 64 * length words.now }
    ensures { IsTrue result ↔ IsSet words.now at }
{
    let bit = at % WORD_BITS;
    lowest_from(words[at / WORD_BITS], bit) == bit
}

/// Whether all bits of one word are set.
pub fn is_full(words: &[u64], word: usize) -> bool
    requires { word < length words.now }
    ensures { IsTrue result ↔ IsFull words.now word }
{
    lowest_from(!words[word], 0) == WORD_BITS
}
