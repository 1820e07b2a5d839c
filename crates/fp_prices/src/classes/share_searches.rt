//! Finds a share in its table, and a weight in its share.
ghost use Rattle.std.specs.Prelude.{◌≡◌, ◌<◌, AllPairs, option_copied};
ghost use Rattle.fp_prices.specs.declared.tables.Weight.{Weight};
ghost use Rattle.fp_prices.specs.Prices.{share_for, weight_in};
ghost use Rattle.fp_prices.specs.Searches.{is_share, precedes};
ghost use Rattle.fp_prices.specs.Tables.{IsAscendingTable};

use crate::tables::{Share, Weight};

// Whether a share's class is before the class of an arc and a point.
fn is_before(share: &Share, arc: u32, point: u32) -> bool
    ensures { result ≡ precedes (record { arc = arc; depart = point }) share.now }
{
    share.arc < arc || share.arc == arc && share.point < point
}

// Whether a share is that of the class of an arc and a point.
fn is_of(share: &Share, arc: u32, point: u32) -> bool
    ensures { result ≡ is_share (record { arc = arc; depart = point }) share.now }
{
    share.arc == arc && share.point == point
}

/// The share of the class of an arc and a point, where shares ascend by arc and then by point.
pub(crate) fn share_of(shares: &[Share], arc: u32, point: u32) -> Option<&Share>
    requires { IsAscendingTable shares.now }
    ensures { option_copied result ≡ share_for shares.now (record { arc = arc; depart = point }) }
{
    let place = shares.partition_point(|share| is_before(share, arc, point));
    if place < shares.len() && is_of(&shares[place], arc, point) {
        Some(&shares[place])
    } else {
        None
    }
}

/// The weight of a shipment, where weights ascend by shipment, and 0 where it has none.
pub(crate) fn weight_of(weights: &[Weight], shipment: u32) -> u128
    requires { AllPairs (λ (v w : Weight). v.shipment < w.shipment) weights.now }
    ensures { result ≡ weight_in weights.now shipment }
{
    let place = weights.partition_point(|weight| weight.shipment < shipment);
    if place < weights.len() && weights[place].shipment == shipment {
        weights[place].w
    } else {
        0
    }
}
