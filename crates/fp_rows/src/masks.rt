//! A range of bits, word by word, each by a mask.

ghost use Rattle.std.specs.Prelude.{ℕ, ◌≡◌, ◌+◌, ◌-◌, ◌*◌, ◌^◌, ◌<◌, ◌≤◌, ◌==◌, ◌&&◌, ◌||◌, not, if◌then◌else◌, length};
ghost use Rattle.std.specs.Int.{bit_at};
ghost use Rattle.fp_rows.specs.Words.{bit_in, is_within, IsFirstWithin};

/// The word with the bit at this place made `to`.
pub fn with_bit(word: u64, place: u32, to: bool) -> u64
    requires { place < 64 }
    ensures { (i : ℕ) → i < 64 → bit_at result i ≡ (if i == place then (if to then 1 else 0) else bit_at word i) }
{
    if to {
        word | (1 << place)
    } else {
        word & !(1 << place)
    }
}

// The lowest bits, so many of them.
fn ones_below(count: u32) -> u64
    requires { count ≤ 64 }
    ensures { result ≡ 2 ^ count - 1 }
{
    if count == 64 {
        u64::MAX
    } else {
        (1 << count) - 1
    }
}

// The bits of one word that lie in a range of bits of all words.
fn range_mask(from: u32, to: u32, word: u32) -> u64
    requires { word < 2 ^ 26 }
    ensures { (i : ℕ) → i < 64 → bit_at result i ≡ (if is_within from to (64 * word + i) then 1 else 0) }
{
    let start = 64 * word;
    let low = from.saturating_sub(start).min(64);
    let high = to.saturating_sub(start).min(64);
    ones_below(high) & !ones_below(low)
}

/// Sets the bits of a range.
pub fn fill_words(words: &mut [u64], from: u32, to: u32)
    requires order { from ≤ to }
    requires within { to ≤ 64 * length words.old }
    ensures { (i : ℕ) → bit_in words.new i ≡ (bit_in words.old i || is_within from to i) }
{
    for word in from / 64..to.div_ceil(64) {
        words[word as usize] |= range_mask(from, to, word);
    }
}

/// Clears the bits of a range.
pub fn clear_words(words: &mut [u64], from: u32, to: u32)
    requires order { from ≤ to }
    requires within { to ≤ 64 * length words.old }
    ensures { (i : ℕ) → bit_in words.new i ≡ (bit_in words.old i && not (is_within from to i)) }
{
    for word in from / 64..to.div_ceil(64) {
        words[word as usize] &= !range_mask(from, to, word);
    }
}

/// The first bit of a range that is set.
pub fn first_in(words: &[u64], from: u32, to: u32) -> Option<u32>
    requires order { from ≤ to }
    requires within { to ≤ 64 * length words.now }
    ensures { IsFirstWithin (bit_in words.now) from to result }
{
    for word in from / 64..to.div_ceil(64) {
        let left = words[word as usize] & range_mask(from, to, word);
        if left != 0 {
            return Some(64 * word + left.trailing_zeros());
        }
    }
    None
}
