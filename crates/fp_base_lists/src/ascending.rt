//! Looking a number up among numbers in ascending order. Each call takes time that grows with the
//! logarithm of how many there are, and no memory.

ghost use Rattle.std.specs.Prelude.{◌≡◌};
ghost use Rattle.std.specs.List.Sorted.{IsNonDecreasing};
ghost use Rattle.fp_base_lists.specs.Ascending.{IsCut, IsPlaceIn, place_in};

/// How many of the numbers are below this one, which is its place where it is among them. The numbers don't fall.
pub fn place_among(numbers: &[u32], number: u32) -> usize
    requires { IsNonDecreasing numbers.now }
    ensures place { result ≡ place_in numbers.now number }
    ensures parts { IsPlaceIn numbers.now number result }
{
    numbers.partition_point(|other| *other < number)
}

/// How many of the numbers are at most this one. The numbers don't fall.
pub fn count_until(numbers: &[u32], most: u32) -> usize
    requires { IsNonDecreasing numbers.now }
    ensures { IsCut numbers.now most result }
{
    numbers.partition_point(|number| *number <= most)
}
