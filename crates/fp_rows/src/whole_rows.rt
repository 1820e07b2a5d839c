//! What the kernels do to the bits of whole rows.

ghost use Rattle.std.specs.Prelude.{ℕ, ◌≡◌, ◌-◌, ◌^◌, ◌<◌, ◌&&◌, not, All, length};
ghost use Rattle.std.specs.Int.{div_ceil};
ghost use Rattle.std.specs.List.{list_any};
ghost use Rattle.fp_rows.specs.Words.{bit_in, bits, IsTidy};
ghost use Rattle.fp_rows.specs.Bits.{count_true, added_bits};

use crate::kernels::{add_bits, and_not_words, and_words, any_word, count_words};

/// Keeps the bits that the other words have too.
pub fn keep_bits(words: &mut [u64], others: &[u64])
    requires { length words.old ≡ length others.now }
    ensures { (i : ℕ) → bit_in words.new i ≡ (bit_in words.old i && bit_in others.now i) }
{
    and_words(words, others);
}

/// Keeps the bits that the other words do not have.
pub fn lose_bits(words: &mut [u64], others: &[u64])
    requires { length words.old ≡ length others.now }
    ensures { (i : ℕ) → bit_in words.new i ≡ (bit_in words.old i && not (bit_in others.now i)) }
{
    and_not_words(words, others);
}

/// Whether a bit is set.
pub fn any_bit(words: &[u64], count: u32) -> bool
    requires { IsTidy words.now count }
    ensures { result ≡ list_any (λ b. b) (bits words.now count) }
{
    any_word(words)
}

/// How many bits are set.
pub fn count_bits(words: &[u64], count: u32) -> u32
    requires { IsTidy words.now count }
    ensures { result ≡ count_true (bits words.now count) }
{
    count_words(words) as u32
}

/// Adds the bits to the counts, which need just these words.
pub fn add_words(words: &[u64], counts: &mut [u32])
    requires enough { length words.now ≡ div_ceil (length counts.old) 64 }
    requires room { All (λ count. count < 2 ^ 32 - 1) counts.old }
    ensures { counts.new ≡ added_bits counts.old (bits words.now (length counts.old)) }
{
    for (place, word) in words.iter().enumerate() {
        let at = 64 * place;
        let end = (at + 64).min(counts.len());
        add_bits(*word, &mut counts[at..end]);
    }
}
