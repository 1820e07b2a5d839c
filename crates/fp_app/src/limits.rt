//! The limits of the inputs.
ghost use Rattle.std.specs.Prelude.{◌≡◌, Some};
ghost use Rattle.fp_app.specs.Inputs.{limit_of};

use crate::Order;

/// The most bytes of an input that is an instance alone.
pub const INSTANCE_LIMIT: usize = 16_777_216;

/// The most bytes of an input in which a certificate follows the instance.
pub const CHECK_LIMIT: usize = 134_217_728;

/// The most bytes of an input to an order.
pub(crate) fn limit_of(order: &Order) -> usize
    ensures { result ≡ limit_of (Some order.now) }
{
    match order {
        Order::Direct | Order::Bound { .. } | Order::Plan { .. } => INSTANCE_LIMIT,
        Order::Replan { .. } | Order::Quote { .. } => INSTANCE_LIMIT,
        Order::Check | Order::Yard { .. } | Order::Fleet { .. } => CHECK_LIMIT,
        Order::Improve { .. } => CHECK_LIMIT,
        Order::Trial { .. } => 0,
    }
}
