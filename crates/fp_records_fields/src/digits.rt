//! Numbers written in digits, of any count.
ghost use Rattle.std.specs.Prelude.{◌≡◌, ◌+◌, ◌-◌, ◌*◌, ◌<◌, ◌≤◌, ◌^◌, MatchOption, true, false};
ghost use Rattle.std.specs.List.{list_all};
ghost use Rattle.std.specs.Char.{is_ascii_digit};
ghost use Rattle.fp_records_fields.specs.Fields.{is_number, is_within, number};

// Whether each byte is an ASCII digit.
fn are_digits(bytes: &[u8]) -> bool
    ensures { result ≡ list_all is_ascii_digit bytes.now }
{
    bytes.iter().all(|byte| byte.is_ascii_digit())
}

/// Whether bytes are a number: one or more ASCII digits, of any count.
pub fn is_number(bytes: &[u8]) -> bool
    ensures { result ≡ is_number bytes.now }
{
    !bytes.is_empty() && are_digits(bytes)
}

// The number with one more digit; `None` exactly where it is above `high`.
fn with_digit(value: u128, digit: u8, high: u128) -> Option<u128>
    requires digit { (48 ≤ digit) × (digit ≤ 57) }
    requires high { high < 2 ^ 127 }
    ensures { MatchOption result (high < value * 10 + (digit - 48)) (λ n. (n ≡ value * 10 + (digit - 48)) × (n ≤ high)) }
{
    let more = value
        .checked_mul(10)?
        .checked_add(u128::from(digit - b'0'))?;
    if more > high { None } else { Some(more) }
}

// The number that digits write; `None` exactly where it is above `high`.
fn number_up_to(digits: &[u8], high: u128) -> Option<u128>
    requires digits { is_number digits.now ≡ true }
    requires high { high < 2 ^ 127 }
    ensures { MatchOption result (is_within 0 high digits.now ≡ false) (λ n. (n ≡ number digits.now) × (is_within 0 high digits.now ≡ true)) }
{
    let mut value: u128 = 0;
    for digit in digits {
        value = with_digit(value, *digit, high)?;
    }
    Some(value)
}

/// The number that digits write, which may be as large as `2^127 - 1`; `None` exactly where it
/// isn't from `low` to `high`.
pub fn number_between(digits: &[u8], low: u128, high: u128) -> Option<u128>
    requires digits { is_number digits.now ≡ true }
    requires high { high < 2 ^ 127 }
    ensures { MatchOption result (is_within low high digits.now ≡ false) (λ n. (n ≡ number digits.now) × (is_within low high digits.now ≡ true)) }
{
    match number_up_to(digits, high) {
        Some(value) if value >= low => Some(value),
        _ => None,
    }
}

/// The same for bounds of 64 bits.
pub fn long_between(digits: &[u8], low: u64, high: u64) -> Option<u64>
    requires digits { is_number digits.now ≡ true }
    ensures { MatchOption result (is_within low high digits.now ≡ false) (λ n. (n ≡ number digits.now) × (is_within low high digits.now ≡ true)) }
{
    let value = number_between(digits, u128::from(low), u128::from(high))?;
    Some(value as u64)
}

/// The same for bounds of 32 bits.
pub fn short_between(digits: &[u8], low: u32, high: u32) -> Option<u32>
    requires digits { is_number digits.now ≡ true }
    ensures { MatchOption result (is_within low high digits.now ≡ false) (λ n. (n ≡ number digits.now) × (is_within low high digits.now ≡ true)) }
{
    let value = number_between(digits, u128::from(low), u128::from(high))?;
    Some(value as u32)
}
