// Inner crate: little-endian words of 4 bytes in lent slices of bytes, and the numbers that they stand for. Callers
// have checked that the words lie within the bytes.
#![tactic(auto)]

ghost use Rattle.std.specs.Prelude.{◌≡◌, true, ◌++◌, ℕ, ◌+◌, ◌*◌, ◌^◌, ◌≤◌, ◌<◌, length, get_or, drop};
ghost use Rattle.std.specs.Float.{binary32};
ghost use Rattle.std.specs.Float.Ieee.{of_bits};
ghost use Rattle.std.specs.Float.Ieee.Scale.{finite};
ghost use Rattle.floats.specs.Sums.{all_finite, all_to};
ghost use Rattle.words.specs.Words.{word_at, float_at, words_from, floats_in, bytes_of, packed_words, packed_floats};

use std::num::f32_from_bits_with_nan;

const INFINITY: u32 = 0x7f80_0000;

const SIGN: u32 = 0x8000_0000;

// How many words are tested between two ways out.
const BLOCK: usize = 8;

#[tactic(auto, unfolding(crate::specs::Words::word_at))]
pub fn word(bytes: &[u8], at: usize) -> u32
    requires { at + 4 ≤ length bytes.now }
    ensures { result ≡ word_at bytes.now at }
{
    u32::from_le_bytes([bytes[at], bytes[at + 1], bytes[at + 2], bytes[at + 3]])
}

pub fn size(bytes: &[u8], at: usize) -> usize
    requires { at + 4 ≤ length bytes.now }
    ensures { (result ≡ word_at bytes.now at) × (result < 2 ^ 32) }
{
    word(bytes, at) as usize
}

// Whether a pattern is a finite number's: its exponent's field is not all ones. No float is made of it.
#[tactic(auto, using(crate::proofs::Patterns::finite_pattern))]
fn is_finite(bits: u32) -> bool
    ensures { result ≡ finite (of_bits binary32 bits) }
{
    bits % SIGN < INFINITY
}

// A NaN's pattern gives the NaN, where `from_bits` has no meaning.
pub fn float(bytes: &[u8], at: usize) -> f32
    requires { at + 4 ≤ length bytes.now }
    ensures { result ≡ of_bits binary32 (word_at bytes.now at) }
{
    f32_from_bits_with_nan(word(bytes, at))
}

// Whether the words of a block, from the word `first` on, are bits of finite numbers. Reads them all before it answers: with
// no way out of the loop the compiler tests several at a time.
fn block_finite(bytes: &[u8], first: usize) -> bool
    requires { (first + BLOCK) * 4 ≤ length bytes.now }
    ensures { result ≡ all_to (λ (k : ℕ). finite (float_at bytes.now ((first + k) * 4))) BLOCK }
{
    (0..BLOCK).fold(
        true,
        |sound, i| sound & is_finite(word(bytes, (first + i) * 4)),
    )
}

// Whether the first `count` words are bits of finite numbers: the whole blocks, then the words that are left one by one. It ends
// with the first block or word that fails.
pub fn all_finite(bytes: &[u8], count: usize) -> bool
    requires { count * 4 ≤ length bytes.now }
    ensures { result ≡ all_finite (floats_in bytes.now count) }
{
    let blocks = count / BLOCK;
    (0..blocks).all(|block| block_finite(bytes, block * BLOCK))
        && (blocks * BLOCK..count).all(|i| is_finite(word(bytes, i * 4)))
}

// As many words as `sizes` has room for, from `from` on.
#[tactic(auto, using(crate::proofs::Tables::table_steps), unfolding(crate::specs::Words::words_from))]
pub fn take_sizes(bytes: &[u8], from: usize, sizes: &mut [usize])
    requires { from + length sizes.old * 4 ≤ length bytes.now }
    ensures { sizes.new ≡ words_from bytes.now from (length sizes.old) }
{
    for (i, place) in sizes.iter_mut().enumerate() {
        *place = size(bytes, from + i * 4);
    }
}

// The numbers of the first words, as many as `floats` has room for.
#[tactic(auto, using(crate::proofs::Tables::table_steps), unfolding(crate::specs::Words::floats_in))]
pub fn take_floats(bytes: &[u8], floats: &mut [f32])
    requires { length floats.old * 4 ≤ length bytes.now }
    ensures { floats.new ≡ floats_in bytes.now (length floats.old) }
{
    for (i, place) in floats.iter_mut().enumerate() {
        *place = float(bytes, i * 4);
    }
}

// A word at the front; the rest is untouched.
#[tactic(auto, unfolding(crate::specs::Words::bytes_of))]
fn put(bytes: &mut [u8], word: u32)
    requires { 4 ≤ length bytes.old }
    ensures { bytes.new ≡ bytes_of word ++ drop 4 bytes.old }
{
    bytes[..4].copy_from_slice(&word.to_le_bytes());
}

#[tactic(auto, using(crate::proofs::Packs::pack_steps), unfolding(crate::specs::Words::packed_words))]
pub fn put_words(bytes: &mut [u8], words: &[u32])
    requires { length words.now * 4 ≤ length bytes.old }
    ensures { bytes.new
        ≡ packed_words words.now ++ drop (length words.now * 4) bytes.old }
{
    for (i, word) in words.iter().enumerate() {
        put(&mut bytes[i * 4..], *word);
    }
}

#[tactic(auto, using(crate::proofs::Packs::pack_steps), unfolding(crate::specs::Words::packed_words))]
pub fn put_sizes(bytes: &mut [u8], sizes: &[usize])
    requires { (length sizes.now * 4 ≤ length bytes.old)
        × ((i : ℕ) → i < length sizes.now → get_or sizes.now i 0 < 2 ^ 32) }
    ensures { bytes.new
        ≡ packed_words sizes.now ++ drop (length sizes.now * 4) bytes.old }
{
    for (i, size) in sizes.iter().enumerate() {
        put(&mut bytes[i * 4..], *size as u32);
    }
}

// Finite numbers only: a NaN has no bits of its own.
#[tactic(auto, using(crate::proofs::Tables::float_steps), unfolding(crate::specs::Words::packed_floats))]
pub fn put_floats(bytes: &mut [u8], floats: &[f32])
    requires { (length floats.now * 4 ≤ length bytes.old) × (all_finite floats.now ≡ true) }
    ensures { bytes.new
        ≡ packed_floats floats.now ++ drop (length floats.now * 4) bytes.old }
{
    for (i, float) in floats.iter().enumerate() {
        put(&mut bytes[i * 4..], float.to_bits());
    }
}
