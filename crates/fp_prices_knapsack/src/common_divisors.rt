//! The greatest common divisor of two numbers.
ghost use Rattle.std.specs.Int.{IsGcd};

/// The greatest common divisor of two numbers, where 0 has every divisor. Takes no memory.
pub fn greatest_common_divisor(mut first: u128, mut second: u128) -> u128
    ensures { IsGcd first second result }
{
    while second != 0 {
        let rest = first % second;
        first = second;
        second = rest;
    }
    first
}
