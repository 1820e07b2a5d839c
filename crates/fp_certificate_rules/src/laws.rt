//! Laws on accepted certificates, without a body: any crate may cite them.
ghost use Rattle.std.specs.Prelude.{◌≡◌};
ghost use Rattle.fp_certificate_rules.specs.Claims.{AcceptedClaims};
ghost use Rattle.fp_certificate_rules.specs.LineCounts.{AcceptedAreFew};

use crate::limits::{MOST_IN_ROUND, MOST_NARROWINGS};

/// What an accepted certificate claims is true: of all plans that lie within the windows,
/// whatever these are, and of all plans where the windows are the instance's own.
///
/// The plans may leave at any fractions of the unit of time. Nothing is asked but that the
/// instance is valid and the certificate in range.
pub fn accepted_claims()
    ensures { AcceptedClaims }
{}

/// An accepted certificate in range whose answer rests on a tree has few lines of each kind, for each
/// valid instance.
///
/// It has at most 99 legs for each of at most 500 shipments, no more departures than legs, at most
/// 8 points for each of 4,000 rounds, at most 100,000 splits, one leaf more than splits, and at most
/// 50,000 narrowings.
pub fn accepted_are_few()
    ensures { AcceptedAreFew }
{}

/// The most points that one round may add are this number.
pub fn round_limit_is_a_number()
    ensures { MOST_IN_ROUND ≡ 8 }
{}

/// The most narrowings that a certificate may have are this number.
pub fn narrowing_limit_is_a_number()
    ensures { MOST_NARROWINGS ≡ 50000 }
{}
