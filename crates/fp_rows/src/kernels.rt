//! The five kernels on words, eight at a time as the lanes of a vector.

ghost use Rattle.std.specs.Prelude.{◌≡◌, ◌+◌, ◌-◌, ◌^◌, ◌<◌, ◌≤◌, All, bit_and, count_ones, length, sum_by};
ghost use Rattle.std.specs.List.{list_any};
ghost use Rattle.std.specs.Simd.Lanes.{zip2};
ghost use Rattle.fp_rows.specs.Words.{word_bits, without, is_set};

use std::simd::prelude::*;

// Words in a vector.
const LANES: usize = 8;

/// Each word becomes the bitwise and of itself and the word of `other` at its place. There are as
/// many words in both.
pub fn and_words(into: &mut [u64], other: &[u64])
    requires { length into.old ≡ length other.now }
    ensures { into.new ≡ zip2 bit_and into.old other.now }
{
    let (blocks, _) = other.as_chunks::<LANES>();
    // By places, since no contract says what a slice ends as after `as_chunks_mut`.
    for (block, lanes) in blocks.iter().enumerate() {
        let at = LANES * block;
        let both = u64x8::from_slice(&into[at..]) & u64x8::from_array(*lanes);
        both.copy_to_slice(&mut into[at..]);
    }
    for place in LANES * blocks.len()..into.len() {
        into[place] &= other[place];
    }
}

/// Each word loses the bits of the word of `other` at its place. There are as many words in both.
pub fn and_not_words(into: &mut [u64], other: &[u64])
    requires { length into.old ≡ length other.now }
    ensures { into.new ≡ zip2 without into.old other.now }
{
    let (blocks, _) = other.as_chunks::<LANES>();
    for (block, lanes) in blocks.iter().enumerate() {
        let at = LANES * block;
        let left = u64x8::from_slice(&into[at..]) & !u64x8::from_array(*lanes);
        left.copy_to_slice(&mut into[at..]);
    }
    for place in LANES * blocks.len()..into.len() {
        into[place] &= !other[place];
    }
}

/// Whether some word is not 0.
pub fn any_word(words: &[u64]) -> bool
    ensures { result ≡ list_any is_set words.now }
{
    let (blocks, rest) = words.as_chunks::<LANES>();
    any_block(blocks) || any_of_rest(rest)
}

// Whether some block has a word that is not 0.
fn any_block(blocks: &[[u64; LANES]]) -> bool
    ensures { result ≡ list_any (list_any is_set) blocks.now }
{
    blocks.iter().any(|lanes| any_lane(*lanes))
}

// Whether some lane is not 0.
fn any_lane(lanes: [u64; LANES]) -> bool
    ensures { result ≡ list_any is_set lanes }
{
    u64x8::from_array(lanes).reduce_or() != 0
}

// Whether some of these fewer words than a block has is not 0.
fn any_of_rest(words: &[u64]) -> bool
    ensures { result ≡ list_any is_set words.now }
{
    words.iter().any(|word| *word != 0)
}

/// How many bits of all words are 1. There are fewer than 2^57 words.
pub fn count_words(words: &[u64]) -> u64
    requires { length words.now < 2 ^ 57 }
    ensures { result ≡ sum_by count_ones words.now }
{
    // Vectors have no count of ones, and the processor counts those of a word in one step.
    words.iter().map(|word| u64::from(word.count_ones())).sum()
}

/// Count `i` grows by bit `i` of the word, the lowest being bit 0. There are at most 64 counts,
/// each with room for one more.
pub fn add_bits(word: u64, counts: &mut [u32])
    requires few { length counts.old ≤ 64 }
    requires room { All (λ count. count < 2 ^ 32 - 1) counts.old }
    ensures { counts.new ≡ zip2 ◌+◌ counts.old (word_bits word) }
{
    let places = u32x8::from_array([0, 1, 2, 3, 4, 5, 6, 7]);
    let blocks = counts.len() / LANES;
    for block in 0..blocks {
        let at = LANES * block;
        let byte = (word >> at) & 255;
        let bits = (u32x8::splat(byte as u32) >> places) & u32x8::splat(1);
        let sums = u32x8::from_slice(&counts[at..]) + bits;
        sums.copy_to_slice(&mut counts[at..]);
    }
    for place in LANES * blocks..counts.len() {
        counts[place] += ((word >> place) & 1) as u32;
    }
}
