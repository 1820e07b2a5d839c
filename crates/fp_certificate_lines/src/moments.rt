//! By which tables leaves are priced by moments.
ghost use Rattle.std.specs.Prelude.{◌≡◌};
ghost use Rattle.fp_certificate_lines.specs.Moments.{by_moments as by_moments_of};

use fp_prices::Kind;

/// Whether leaves are priced by moments by a kind of prices: of the list, which is for the tables 1, 2
/// and so on, what it says of the table that the kind names. They aren't by linear and even prices, and
/// where nothing is told of the table.
pub fn by_moments(moments: &[bool], kind: Kind) -> bool
    ensures { result ≡ by_moments_of moments.now kind }
{
    match kind {
        Kind::Linear | Kind::Even => false,
        Kind::Table { id } => match moments.get((id as usize).saturating_sub(1)) {
            Some(by_moments) => *by_moments,
            None => false,
        },
    }
}
