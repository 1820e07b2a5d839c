//! Compares the calls with a plain program over truth values, one bit at a time.
ghost use Rattle.std.specs.Prelude.{◌≡◌, ◌<◌, ◌^◌, IfOk, length, vec_len};

use fp_rows::{Row, and_not_words, and_words, any_word, count_words};
use std::alloc::{AllocError, Global};

// So many words, the bits of which follow no rule.
fn drawn_words(alloc: Global, count: usize, seed: u64) -> Result<Vec<u64>, AllocError>
    ensures { IfOk result (λ w. vec_len w ≡ count) }
{
    let mut words = Vec::new(alloc);
    let mut state = seed;
    for _word in 0..count {
        state = state
            .wrapping_mul(6364136223846793005)
            .wrapping_add(1442695040888963407);
        words.push(state ^ (state >> 29))?;
    }
    Ok(words)
}

// The bits of words, the lowest of the first first.
fn plain_bits(alloc: Global, words: &[u64]) -> Result<Vec<bool>, AllocError> {
    let mut bits = Vec::new(alloc);
    for word in words {
        for place in 0..64u32 {
            bits.push((*word >> place) & 1 == 1)?;
        }
    }
    Ok(bits)
}

#[test]
fn kernels_agree_with_single_bits(rt: HostRuntime) -> Result<(), AllocError> {
    let mut five = [1, 2, 3, 4, 5];
    and_words(&mut five, &[1, 1, 1, 1, 4]);
    assert_eq!(rt; five, [1, 0, 1, 0, 4]);
    assert_eq!(rt; count_words(&five), 3);
    let alloc = rt.alloc();
    for count in [0usize, 1, 7, 8, 9, 63, 64, 65, 1000] {
        let words = drawn_words(alloc, count, 1)?;
        let masks = drawn_words(alloc, count, 2)?;
        let mut kept = words.clone()?;
        let mut lost = words.clone()?;
        assert!(rt; kept.len() == masks.len() && lost.len() == masks.len() && words.len() < 2000);
        and_words(&mut kept, &masks);
        and_not_words(&mut lost, &masks);
        let bits = plain_bits(alloc, &words)?;
        let others = plain_bits(alloc, &masks)?;
        let kept_bits = plain_bits(alloc, &kept)?;
        let lost_bits = plain_bits(alloc, &lost)?;
        let mut ones = 0u64;
        for (((bit, other), kept), lost) in bits
            .iter()
            .zip(&others)
            .zip(&kept_bits)
            .zip(&lost_bits)
        {
            assert_eq!(rt; *kept, *bit && *other, "and at {count} words");
            assert_eq!(rt; *lost, *bit && !*other, "and not at {count} words");
            ones = ones.wrapping_add(u64::from(*bit));
        }
        assert_eq!(rt; count_words(&words), ones, "count of {count} words");
        assert_eq!(rt; any_word(&words), ones > 0, "any of {count} words");
        let mut last = vec![in alloc; 0u64; count]?;
        assert!(rt; !any_word(&last), "any of {count} words that are 0");
        if count > 0 {
            last[count - 1] = 1;
            assert!(rt; any_word(&last), "the last of {count} words");
        }
    }
    Ok(())
}

// A row of these bits.
fn row_of(alloc: Global, bits: &[bool]) -> Result<Row, AllocError>
    requires { length bits.now < 2 ^ 32 }
    ensures { IfOk result (λ r. length r ≡ length bits.now) }
{
    let mut row = Row::new(alloc, bits.len() as u32)?;
    for (place, bit) in bits.iter().enumerate() {
        row.set(place as u32, *bit);
    }
    Ok(row)
}

// Whether the row has these bits.
fn reads_as(row: &Row, bits: &[bool]) -> bool
    requires few { length bits.now < 2 ^ 32 }
    requires same { length row.now ≡ length bits.now }
{
    for (place, bit) in bits.iter().enumerate() {
        if row.get(place as u32) != *bit {
            return false;
        }
    }
    true
}

// The bits where the other bits are `kept`.
fn plain_masked(
    alloc: Global,
    bits: &[bool],
    others: &[bool],
    kept: bool,
) -> Result<Vec<bool>, AllocError>
    requires { length bits.now ≡ length others.now }
    ensures { IfOk result (λ v. vec_len v ≡ length bits.now) }
{
    let mut masked = Vec::new(alloc);
    for place in 0..bits.len() {
        masked.push(bits[place] && others[place] == kept)?;
    }
    Ok(masked)
}

// The bits with those of a range made `value`.
fn plain_ranged(
    alloc: Global,
    bits: &[bool],
    from: usize,
    to: usize,
    value: bool,
) -> Result<Vec<bool>, AllocError>
    ensures { IfOk result (λ v. vec_len v ≡ length bits.now) }
{
    let mut ranged = Vec::new(alloc);
    for place in 0..bits.len() {
        ranged.push(if from <= place && place < to {
            value
        } else {
            bits[place]
        })?;
    }
    Ok(ranged)
}

// Whether masks and ranges agree.
fn changes_agree(alloc: Global, bits: &[bool], others: &[bool]) -> Result<bool, AllocError>
    requires same { length bits.now ≡ length others.now }
    requires few { length bits.now < 2 ^ 32 }
{
    let (from, to) = (bits.len() / 3, bits.len() - bits.len() / 5);
    let mut row = row_of(alloc, bits)?;
    let other = row_of(alloc, others)?;
    row.and_with(&other);
    let kept = plain_masked(alloc, bits, others, true)?;
    let with = reads_as(&row, &kept);
    let mut row = row_of(alloc, bits)?;
    row.and_not_with(&other);
    let lost = plain_masked(alloc, bits, others, false)?;
    let without = reads_as(&row, &lost);
    let mut row = row_of(alloc, bits)?;
    row.fill_range(from as u32, to as u32);
    let filled = plain_ranged(alloc, bits, from, to, true)?;
    let full = reads_as(&row, &filled);
    let mut row = row_of(alloc, bits)?;
    row.clear_range(from as u32, to as u32);
    let cleared = plain_ranged(alloc, bits, from, to, false)?;
    Ok(with && without && full && reads_as(&row, &cleared))
}

// Whether what is read of a row agrees.
fn readings_agree(alloc: Global, bits: &[bool]) -> Result<bool, AllocError>
    requires { length bits.now < 2 ^ 32 }
{
    let row = row_of(alloc, bits)?;
    let mut counts = vec![in alloc; 7u32; bits.len()]?;
    row.add_to(&mut counts);
    let mut ones = 0u32;
    let mut next = row.first_from(0);
    for place in 0..bits.len() {
        if bits[place] {
            if next != Some(place as u32) || counts[place] != 8 {
                return Ok(false);
            }
            ones = ones.wrapping_add(1);
            next = row.first_from(place as u32 + 1);
        } else if counts[place] != 7 {
            return Ok(false);
        }
    }
    Ok(next == None && row.count() == ones && row.is_zero() == (ones == 0))
}

#[test]
fn rows_agree_with_single_bits(rt: HostRuntime) -> Result<(), AllocError> {
    let alloc = rt.alloc();
    for count in [0usize, 1, 7, 8, 9, 63, 64, 65, 1000] {
        let words = drawn_words(alloc, count, 3)?;
        let masks = drawn_words(alloc, count, 4)?;
        let bits = plain_bits(alloc, &words)?;
        let others = plain_bits(alloc, &masks)?;
        // The last word is not full.
        let length = bits.len().saturating_sub(5);
        assert!(rt; length < 100_000 && length <= others.len());
        assert!(rt;
            changes_agree(alloc, &bits[..length], &others[..length])?,
            "changes at {length} bits"
        );
        assert!(rt;
            readings_agree(alloc, &bits[..length])?,
            "readings at {length} bits"
        );
        let none = vec![in alloc; false; length]?;
        assert!(rt;
            readings_agree(alloc, &none)?,
            "readings of {length} bits that are false"
        );
    }
    Ok(())
}
