//! A certificate under test.
use fp_certificate_lines::Certificate;
use fp_flatnet::Windows;
use fp_model::Instance;
use std::marker::Model;

/// A certificate, with the instance and the windows that it is tested against: the windows belong to
/// the instance, and the certificate is in range. Contracts see the three as one record.
#[derive(Drop)]
pub(crate) struct Case<'a> {
    pub(crate) instance: &'a Instance,
    pub(crate) windows: &'a Windows,
    pub(crate) certificate: &'a Certificate,
}

impl<'a> Model for Case<'a> {
    ghost use Rattle.fp_checker.specs.Cases.{Tested, IsTestable};

    ghost Value = { Tested };

    ghost view = { λ c. record { problem = c.instance.now; windows = c.windows.now; told = c.certificate.now } };

    ghost invariant = { λ c. IsTestable (record { problem = c.instance.now; windows = c.windows.now; told = c.certificate.now }) };
}
