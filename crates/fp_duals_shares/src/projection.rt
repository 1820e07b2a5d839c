//! The projection onto what the parts of a price may come to together.

// What the parts come to, and how many of them are above 0.
fn total(parts: &[u64]) -> (u64, u64) {
    let mut sum = 0u64;
    let mut count = 0u64;
    for part in parts {
        sum = sum.saturating_add(*part);
        count = count.wrapping_add((*part > 0) as u64);
    }
    (sum, count)
}

// Takes the same from each part, down to 0.
fn lower(parts: &mut [u64], by: u64) {
    for part in parts.iter_mut() {
        *part = part.saturating_sub(by);
    }
}

/// Takes the same from each part, down to 0, so that they come to `most` at most.
pub(crate) fn project(parts: &mut [u64], most: u64) {
    for _ in 0..parts.len() {
        let (sum, count) = total(parts);
        if sum <= most {
            break;
        }
        lower(parts, (sum - most).div_ceil(count.max(1)));
    }
}
