//! Sets of small numbers, kept as bits.
ghost use Rattle.std.specs.Prelude.{◌≡◌, ◌≢◌, ℕ, ◌+◌, ◌<◌, ◌≤◌, ◌*◌, ◌/◌, ◌↔◌, ◌⊎◌, IfOk, IsTrue, length, slice_index_or, vec_len};
ghost use Rattle.trace_export.specs.Bits.{HasBit};

use std::alloc::{AllocError, Global};

/// The empty set, with room for the numbers up to `greatest`.
pub(crate) fn no_bits(alloc: Global, greatest: usize) -> Result<Vec<u64>, AllocError>
    ensures none { IfOk result (λ words. (n : ℕ) → ¬ HasBit words.items n) }
    ensures room { IfOk result (λ words. (greatest < 64 * vec_len words) × (64 * vec_len words ≤ greatest + 64)) }
{
    vec![in alloc; 0; greatest / 64 + 1]
}

/// Whether the set has the number.
#[inline(always)]
pub(crate) fn has_bit(words: &[u64], n: usize) -> bool
    ensures { IsTrue result ↔ HasBit words.now n }
{
    match words.get(n / 64) {
        Some(word) => (*word >> (n % 64)) & 1 == 1,
        None => false,
    }
}

/// Adds the number.
pub(crate) fn add_bit(words: &mut [u64], n: usize)
    requires { n < 64 * length words.old }
    ensures has { (m : ℕ) → HasBit words.new m ↔ (HasBit words.old m ⊎ (m ≡ n)) }
    ensures len { length words.new ≡ length words.old }
{
    words[n / 64] |= 1 << (n % 64);
}

/// Takes the number out of the set.
pub(crate) fn remove_bit(words: &mut [u64], n: usize)
    requires { n < 64 * length words.old }
    ensures others { (m : ℕ) → m ≢ n → HasBit words.old m → HasBit words.new m }
    ensures len { length words.new ≡ length words.old }
{
    words[n / 64] &= !(1 << (n % 64));
}

/// How many numbers from this one on, up to the end of a word, are not in the first set or are in both of the others.
#[inline(always)]
pub(crate) fn run_outside(words: &[u64], ones: &[u64], others: &[u64], from: usize) -> usize
    ensures all { (n : ℕ) → from ≤ n → n < from + result → (¬ HasBit words.now n) ⊎ (HasBit ones.now n × HasBit others.now n) }
    ensures few { result ≤ 64 }
{
    let passed = !word_of(words, from) | word_of(ones, from) & word_of(others, from);
    (passed >> (from % 64)).trailing_ones() as usize
}

/// The word that has the number's bit.
#[inline(always)]
fn word_of(words: &[u64], n: usize) -> u64
    ensures { result ≡ slice_index_or words.now (n / 64) 0 }
{
    match words.get(n / 64) {
        Some(word) => *word,
        None => 0,
    }
}

/// Adds all numbers of another set.
pub(crate) fn add_bits(words: &mut [u64], others: &[u64])
    requires { length others.now ≤ length words.old }
    ensures has { (m : ℕ) → HasBit words.new m ↔ (HasBit words.old m ⊎ HasBit others.now m) }
    ensures len { length words.new ≡ length words.old }
{
    for (k, other) in others.iter().enumerate() {
        words[k] |= *other;
    }
}
