//! Laws on the text of certificates.
ghost use Rattle.std.specs.Prelude.{◌≡◌, All};
ghost use Rattle.fp_certificate_lines.specs.Lengths.{TextsAreShort};
ghost use Rattle.fp_certificate_lines.specs.Ranges.{HaveNames, largest_figure};
ghost use Rattle.fp_model.specs.declared.parts.Shipment.{Shipment};
ghost use Rattle.fp_model.specs.Names.{IsName};
ghost use Rattle.fp_model.specs.Problem.{IsValid};

use crate::limits::LARGEST_FIGURE;
use fp_model::{Instance, Shipment};

/// The largest number that a field may have where no other limit is named is `2^127 - 1`, as in the
/// definition of certificates in range.
pub fn largest_figure_is_a_number()
    ensures { LARGEST_FIGURE ≡ largest_figure }
{}

// That the names of shipments are names. The call does nothing else.
fn read_names(shipments: &[Shipment])
    ensures { All (λ (s : Shipment). IsName s.name) shipments.now }
{
    for shipment in shipments {
        let _name = shipment.name.bytes();
    }
}

/// That an instance is valid and the names of its shipments are names. The call does nothing else.
pub fn instances_are_named(instance: &Instance)
    ensures valid { IsValid instance.now }
    ensures names { HaveNames instance.now }
{
    read_names(instance.shipments());
}

/// How long the text that [`crate::write`] gives of a certificate is at most, for each instance.
///
/// The certificate is in range, and its tables can be counted in 32 bits. Then the text has at most
/// 173 bytes, and 117 for each leg, 159 for each departure, 51 for each point, 165 for each line of
/// its tables (of a table, a share, a span, a weight, a group or a gift), 109 for each split, 35 for
/// each leaf and 70 for each narrowing. The call does nothing.
pub fn texts_are_short(instance: &Instance)
    ensures { TextsAreShort instance.now }
{
    instances_are_named(instance);
}
