//! Parts of slices that are changed, and numbers that are copied.

/// The elements from one place up to and without another; `None` where these are no places.
pub fn part_mut<T>(all: &mut [T], first: usize, end: usize) -> Option<&mut [T]> {
    if first <= end && end <= all.len() {
        Some(&mut all[first..end])
    } else {
        None
    }
}

/// Copies numbers, as many as both lists have.
pub fn copy_all(to: &mut [u64], from: &[u64]) {
    for (to, from) in to.iter_mut().zip(from.iter()) {
        *to = *from;
    }
}
