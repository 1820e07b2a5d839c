//! Lines `point,TERMINAL,TIME,ROUND`.
ghost use Rattle.std.specs.Prelude.{◌≡◌, ◌<◌, ◌++◌, All, false, length, map, OnOk};
ghost use Rattle.fp_records.specs.Text.{line_of, lines_of};
ghost use Rattle.fp_certificate_lines.specs.Ranges.{PointExists};
ghost use Rattle.fp_certificate_lines.specs.Rows.{point_fields};

use crate::NoMemory;
use crate::lines::names::write_terminal;
use fp_model::Instance;
use fp_records::Line;
use fp_timenodes::AddedPoint;

// Adds the line of a point.
fn write_point(line: &mut Line, instance: &Instance, point: &AddedPoint) -> Result<(), NoMemory>
    requires begun { line.old.begun ≡ false }
    requires exists { PointExists instance.now point.now }
    ensures text { OnOk result (line.new.text ≡ line.old.text ++ line_of (point_fields instance.now point.now)) }
    ensures ended { OnOk result (line.new.begun ≡ false) }
{
    line.word(b"point")?;
    write_terminal(line, instance, point.terminal)?;
    line.number(u128::from(point.at))?;
    line.number(u128::from(point.round))?;
    line.end()
}

/// Adds the lines of points.
pub fn write_points(
    line: &mut Line,
    instance: &Instance,
    points: &[AddedPoint],
) -> Result<(), NoMemory>
    requires begun { line.old.begun ≡ false }
    requires exist { All (PointExists instance.now) points.now }
    ensures text { OnOk result (line.new.text ≡ line.old.text ++ lines_of (map (point_fields instance.now) points.now)) }
    ensures ended { OnOk result (line.new.begun ≡ false) }
{
    for point in points {
        write_point(line, instance, point)?;
    }
    Ok(())
}
