//! Lines `weight,SHIPMENT,W`.
ghost use Rattle.std.specs.Prelude.{◌≡◌, ◌++◌, All, false, map, OnOk};
ghost use Rattle.fp_records.specs.Text.{line_of, lines_of};
ghost use Rattle.fp_certificate_lines.specs.Ranges.{WeightExists};
ghost use Rattle.fp_certificate_lines.specs.Rows.{weight_fields};

use crate::NoMemory;
use crate::lines::names::write_shipment;
use fp_model::Instance;
use fp_prices::Weight;
use fp_records::Line;

// Adds the line of a weight.
fn write_weight(line: &mut Line, instance: &Instance, weight: &Weight) -> Result<(), NoMemory>
    requires begun { line.old.begun ≡ false }
    requires exists { WeightExists instance.now weight.now }
    ensures text { OnOk result (line.new.text ≡ line.old.text ++ line_of (weight_fields instance.now weight.now)) }
    ensures ended { OnOk result (line.new.begun ≡ false) }
{
    line.word(b"weight")?;
    write_shipment(line, instance, weight.shipment)?;
    line.number(weight.w)?;
    line.end()
}

/// Adds the lines of weights.
pub fn write_weights(
    line: &mut Line,
    instance: &Instance,
    weights: &[Weight],
) -> Result<(), NoMemory>
    requires begun { line.old.begun ≡ false }
    requires exist { All (WeightExists instance.now) weights.now }
    ensures text { OnOk result (line.new.text ≡ line.old.text ++ lines_of (map (weight_fields instance.now) weights.now)) }
    ensures ended { OnOk result (line.new.begun ≡ false) }
{
    for weight in weights {
        write_weight(line, instance, weight)?;
    }
    Ok(())
}
