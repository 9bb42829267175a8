// A row of bits with two summaries above it, so that the first clear bit is found by three looks, however
// many bits are set.
ghost use Rattle.std.specs.Prelude.{◌≡◌, ◌≢◌, ℕ, ◌*◌, ◌+◌, ◌/◌, ◌^◌, ◌<◌, ◌≤◌, ◌↔◌, ◌⊎◌, IfOk, IsTrue, length, replicate};
ghost use Rattle.sg_alloc.specs.Rows.{AreRows, HasClear, IsFirstClear};
ghost use Rattle.sg_bits.specs.Bits.{IsSet, IsFull};

use sg_base::OutOfMemory;
use sg_bits::{WORD_BITS, clear, is_full, is_set, next_clear, set};
use std::alloc::Global;
use std::marker::Model;

#[derive(Drop)]
pub struct Rows {
    // The bits.
    words: Vec<u64>,
    // A bit for each of these words, set where all bits of the word are.
    full: Vec<u64>,
    // A bit for each of the words of `full`, set where all bits of the word are.
    all_full: Vec<u64>,
}

impl Model for Rows {
    ghost use Rattle.std.specs.Prelude.{List, ℕ};
    ghost use Rattle.sg_alloc.specs.Rows.{AreRows};

    ghost Value = { List ℕ };

    ghost view = { λ r. r.words.items };

    ghost invariant = { λ r. AreRows r.words.items r.full.items r.all_full.items };
}

// So many words, none of whose bits is set.
fn new_words(alloc: Global, count: usize) -> Result<Vec<u64>, OutOfMemory>
    ensures { IfOk result (λ v. v.items ≡ replicate count 0) }
{
    match vec![in alloc; 0u64; count] {
        Ok(words) => Ok(words),
        Err(_) => Err(OutOfMemory),
    }
}

// Sets a word's bit in the summary, if the word is full.
fn raise(lower: &[u64], upper: &mut [u64], word: usize)
    requires few { 64 * length upper.old < 2 ^ 64 }
    requires there { word < length lower.now }
    requires fits { word < 64 * length upper.old }
    ensures { (w : ℕ) → IsSet upper.new w ↔ (IsSet upper.old w ⊎ ((w ≡ word) × IsFull lower.now word)) }
{
    if is_full(lower, word) {
        set(upper, word, word + 1);
    }
}

// Sets a bit, and those that it fills.
fn set_bit(words: &mut [u64], full: &mut [u64], all_full: &mut [u64], at: usize)
    requires rows { AreRows words.old full.old all_full.old }
    requires fits { at < 64 * length words.old }
    ensures rows { AreRows words.new full.new all_full.new }
    ensures bits { (k : ℕ) → IsSet words.new k ↔ (IsSet words.old k ⊎ (k ≡ at)) }
{
    let word = at / WORD_BITS;
    set(words, at, at + 1);
    raise(words, full, word);
    raise(full, all_full, word / WORD_BITS);
}

// Clears a bit, and those above it.
fn clear_bit(words: &mut [u64], full: &mut [u64], all_full: &mut [u64], at: usize)
    requires rows { AreRows words.old full.old all_full.old }
    requires fits { at < 64 * length words.old }
    ensures rows { AreRows words.new full.new all_full.new }
    ensures bits { (k : ℕ) → IsSet words.new k ↔ (IsSet words.old k × (k ≢ at)) }
{
    let word = at / WORD_BITS;
    clear(words, at);
    clear(full, word);
    clear(all_full, word / WORD_BITS);
}

// The first clear bit.
fn find_clear(words: &[u64], full: &[u64], all_full: &[u64]) -> usize
    requires rows { AreRows words.now full.now all_full.now }
    requires some { HasClear words.now }
    ensures { IsFirstClear words.now result }
{
    let top = next_clear(all_full, 0);
    let word = next_clear(full, top * WORD_BITS);
    next_clear(words, word * WORD_BITS)
}

impl Rows {
    // So many words, none of whose bits is set.
    pub fn new(alloc: Global, count: usize) -> Result<Rows, OutOfMemory>
        requires { 64 * count < 2 ^ 63 }
        ensures { IfOk result (λ r. r ≡ replicate count 0) }
    {
        let above = count / WORD_BITS + 1;
        Ok(Rows {
            words: new_words(alloc, count)?,
            full: new_words(alloc, above)?,
            all_full: new_words(alloc, above / WORD_BITS + 1)?,
        })
    }

    // Sets a bit.
    pub fn set(&mut self, at: usize)
        requires { at < 64 * length self.old }
        ensures size { length self.new ≡ length self.old }
        ensures bits { (k : ℕ) → IsSet self.new k ↔ (IsSet self.old k ⊎ (k ≡ at)) }
    {
        set_bit(
            self.words.as_mut_slice(),
            self.full.as_mut_slice(),
            self.all_full.as_mut_slice(),
            at,
        );
    }

    // Clears a bit.
    pub fn clear(&mut self, at: usize)
        requires { at < 64 * length self.old }
        ensures size { length self.new ≡ length self.old }
        ensures bits { (k : ℕ) → IsSet self.new k ↔ (IsSet self.old k × (k ≢ at)) }
    {
        clear_bit(
            self.words.as_mut_slice(),
            self.full.as_mut_slice(),
            self.all_full.as_mut_slice(),
            at,
        );
    }

    // The first clear bit.
    pub fn first_clear(&self) -> usize
        requires { HasClear self.now }
        ensures { IsFirstClear self.now result }
    {
        find_clear(
            self.words.as_slice(),
            self.full.as_slice(),
            self.all_full.as_slice(),
        )
    }

    // Whether a bit is set.
    pub fn is_set(&self, at: usize) -> bool
        requires { at < 64 * length self.now }
        ensures { IsTrue result ↔ IsSet self.now at }
    {
        is_set(self.words.as_slice(), at)
    }
}
