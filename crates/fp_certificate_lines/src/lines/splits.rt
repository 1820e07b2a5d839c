//! Lines `split,arc,SHIPMENT,FROM,TO`, `split,time,SHIPMENT,TERMINAL,AT`,
//! `split,trucks,FROM,TO,POINT,UNTIL,N` and `split,way,SHIPMENT,FROM,TO`.
ghost use Rattle.std.specs.Prelude.{◌≡◌, ◌<◌, ◌++◌, false, length, OnOk};
ghost use Rattle.fp_records.specs.Text.{line_of};
ghost use Rattle.fp_certificate_lines.specs.Ranges.{SplitExists};
ghost use Rattle.fp_certificate_lines.specs.Rows.{split_fields};
ghost use Rattle.fp_tree.specs.declared.sides.Split.TheVariants.{ByArc, ByTime, ByTrucks, ByWay};

use crate::NoMemory;
use crate::lines::names::{write_ends, write_shipment, write_terminal};
use fp_model::Instance;
use fp_records::Line;
use fp_tree::Split;

// Adds `split,arc,SHIPMENT,FROM,TO`.
fn write_by_arc(
    line: &mut Line,
    instance: &Instance,
    shipment: u32,
    arc: u32,
) -> Result<(), NoMemory>
    requires begun { line.old.begun ≡ false }
    requires shipment { shipment < length instance.now.shipments }
    requires arc { arc < length instance.now.arcs }
    ensures text { OnOk result (line.new.text ≡ line.old.text ++ line_of (split_fields instance.now (ByArc shipment arc))) }
    ensures ended { OnOk result (line.new.begun ≡ false) }
{
    line.word(b"split")?;
    line.word(b"arc")?;
    write_shipment(line, instance, shipment)?;
    write_ends(line, instance, arc)?;
    line.end()
}

// Adds `split,time,SHIPMENT,TERMINAL,AT`.
fn write_by_time(
    line: &mut Line,
    instance: &Instance,
    shipment: u32,
    terminal: u32,
    at: u32,
) -> Result<(), NoMemory>
    requires begun { line.old.begun ≡ false }
    requires shipment { shipment < length instance.now.shipments }
    requires terminal { terminal < length instance.now.terminals }
    ensures text { OnOk result (line.new.text ≡ line.old.text ++ line_of (split_fields instance.now (ByTime shipment terminal at))) }
    ensures ended { OnOk result (line.new.begun ≡ false) }
{
    line.word(b"split")?;
    line.word(b"time")?;
    write_shipment(line, instance, shipment)?;
    write_terminal(line, instance, terminal)?;
    line.number(u128::from(at))?;
    line.end()
}

// Adds `split,trucks,FROM,TO,POINT,UNTIL,N`.
fn write_by_trucks(
    line: &mut Line,
    instance: &Instance,
    arc: u32,
    point: u32,
    until: u32,
    most: u32,
) -> Result<(), NoMemory>
    requires begun { line.old.begun ≡ false }
    requires arc { arc < length instance.now.arcs }
    ensures text { OnOk result (line.new.text ≡ line.old.text ++ line_of (split_fields instance.now (ByTrucks arc point until most))) }
    ensures ended { OnOk result (line.new.begun ≡ false) }
{
    line.word(b"split")?;
    line.word(b"trucks")?;
    write_ends(line, instance, arc)?;
    line.number(u128::from(point))?;
    line.number(u128::from(until))?;
    line.number(u128::from(most))?;
    line.end()
}

// Adds `split,way,SHIPMENT,FROM,TO`.
fn write_by_way(
    line: &mut Line,
    instance: &Instance,
    shipment: u32,
    arc: u32,
) -> Result<(), NoMemory>
    requires begun { line.old.begun ≡ false }
    requires shipment { shipment < length instance.now.shipments }
    requires arc { arc < length instance.now.arcs }
    ensures text { OnOk result (line.new.text ≡ line.old.text ++ line_of (split_fields instance.now (ByWay shipment arc))) }
    ensures ended { OnOk result (line.new.begun ≡ false) }
{
    line.word(b"split")?;
    line.word(b"way")?;
    write_shipment(line, instance, shipment)?;
    write_ends(line, instance, arc)?;
    line.end()
}

/// Adds the line of a split.
pub fn write_split(line: &mut Line, instance: &Instance, split: Split) -> Result<(), NoMemory>
    requires begun { line.old.begun ≡ false }
    requires exists { SplitExists instance.now split }
    ensures text { OnOk result (line.new.text ≡ line.old.text ++ line_of (split_fields instance.now split)) }
    ensures ended { OnOk result (line.new.begun ≡ false) }
{
    match split {
        Split::ByArc { shipment, arc } => write_by_arc(line, instance, shipment, arc),
        Split::ByTime {
            shipment,
            terminal,
            at,
        } => write_by_time(line, instance, shipment, terminal, at),
        Split::ByTrucks {
            arc,
            point,
            until,
            most,
        } => write_by_trucks(line, instance, arc, point, until, most),
        Split::ByWay { shipment, arc } => write_by_way(line, instance, shipment, arc),
    }
}
