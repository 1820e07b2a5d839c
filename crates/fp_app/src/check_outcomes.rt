//! What the checker says of a certificate: the one test that `check` and `trial` make.
ghost use Rattle.std.specs.Prelude.{◌≡◌, IfOk};
ghost use Rattle.fp_app.specs.CheckInputs.{CanBeChecked};
ghost use Rattle.fp_app.specs.Checks.{IsCheckOutcome};

use crate::NoMemory;
use fp_certificate::Certificate;
use fp_checker::{Rejected, check};
use fp_flatnet::Windows;
use fp_model::Instance;
use std::alloc::{AllocError, Global};
use std::marker::Model;

/// What the checker says of a certificate: that it's accepted, or the first part that fails. Nothing
/// but a check makes one.
#[derive(Drop)]
pub struct CheckOutcome {
    failed: Option<u32>,
}

impl Model for CheckOutcome {
    ghost use Rattle.std.specs.Prelude.{ℕ, Option};

    ghost Value = { Option ℕ };

    ghost view = { λ x. x.failed };
}

impl CheckOutcome {
    /// The number of the first part that fails, `None` where the certificate is accepted: 1 the plan, 2
    /// its cost, 3 the trucks, 4 the points, 5 the prices, 6 the tree, 7 a leaf below the claim, 8 an
    /// answer `infeasible` that isn't so.
    pub fn failed(&self) -> Option<u32>
        ensures { result ≡ self.now }
    {
        self.failed
    }
}

/// Checks a certificate for an instance, which has the scale under which the certificate was made.
pub(crate) fn check_outcome(
    alloc: Global,
    instance: &Instance,
    certificate: &Certificate,
) -> Result<CheckOutcome, NoMemory>
    requires { CanBeChecked instance.now certificate.now }
    ensures { IfOk result (IsCheckOutcome instance.now certificate.now) }
{
    let windows = Windows::of(alloc, instance)?;
    match check(alloc, instance, &windows, certificate) {
        Ok(()) => Ok(CheckOutcome { failed: None }),
        Err(Rejected::Part { number }) => Ok(CheckOutcome {
            failed: Some(number),
        }),
        Err(Rejected::NoMemory) => Err(AllocError),
    }
}
