//! Writes a certificate.
ghost use Rattle.std.specs.Prelude.{◌≡◌, ◌++◌, false, IfOk, OnOk};
ghost use Rattle.fp_records.specs.Text.{line_of, lines_of};
ghost use Rattle.fp_certificate_lines.specs.Ranges.{IsNamed};
ghost use Rattle.fp_certificate_lines.specs.Rows.{end_fields, rows_of};

use crate::NoMemory;
use crate::certificates::Certificate;
use crate::lines::answers::write_answer;
use crate::lines::legs::write_legs;
use crate::lines::nodes::write_tree;
use crate::lines::points::write_points;
use crate::lines::scales::write_scale;
use crate::lines::tables::write_tables;
use crate::lines::trucks::write_trucks;
use crate::lines::units::write_unit;
use fp_model::Instance;
use fp_records::Line;
use std::alloc::Global;

// Adds `end`.
fn write_end(line: &mut Line) -> Result<(), NoMemory>
    requires begun { line.old.begun ≡ false }
    ensures text { OnOk result (line.new.text ≡ line.old.text ++ line_of end_fields) }
{
    line.word(b"end")?;
    line.end()
}

/// The text of a certificate of an instance.
///
/// Each line ends with a line feed, and its fields are joined by commas. Numbers are decimal
/// without leading zeros, and names stand without quotes. The lines are, in this order:
///
/// - `answer,direct,COST`, `answer,optimal,COST`, `answer,unfinished,COST,BOUND,SPENT` with
///   `rounds`, `branches` or `time`, or `answer,infeasible,SHIPMENT,TIME` with a fastest time or `none`.
/// - `scale,N`, where the certificate has a scale, and `unit,Q`, where it has a unit.
/// - `leg,SHIPMENT,FROM,TO,DEPART,ARRIVE` for each leg, `truck,FROM,TO,DEPART,TRUCKS,LOAD` for each
///   departure, and `point,TERMINAL,TIME,ROUND` for each added point.
/// - `table,ID` for each table, or `table,ID,moments` where leaves are priced by moments by it,
///   followed by `share,FROM,TO,POINT,V` for each of its shares, each
///   followed by `weight,SHIPMENT,W` for each of its weights; and then by
///   `span,FROM,TO,POINT,UNTIL,MONEY,CHARGE` for each span beside it, each followed by its weights
///   and then by `group,MOMENT` for each moment at which a further group begins; and then by
///   `gift,FROM,TO,POINT,UNTIL,SIDE,AMOUNT` for each gift beside it, with `least` or `most`.
/// - For each node of the tree `split,arc,SHIPMENT,FROM,TO`, `split,time,SHIPMENT,TERMINAL,AT`,
///   `split,trucks,FROM,TO,POINT,UNTIL,N`, `split,way,SHIPMENT,FROM,TO`, or `leaf,KIND,ROUND,MODE` or
///   `leaf,KIND,ROUND,MODE,SIDES`, with `linear`, `even` or a table's ID for the kind, and `plain` or `forced`
///   for the mode; and before a node `narrow,KIND,ROUND,MODE` or `narrow,KIND,ROUND,MODE,WORTH` for each
///   narrowing at it.
/// - `end`.
///
/// The terminals, arcs and shipments of the certificate have to be the instance's. Fails only where
/// no memory is found.
pub fn write(
    alloc: Global,
    instance: &Instance,
    certificate: &Certificate,
) -> Result<Vec<u8>, NoMemory>
    requires { IsNamed instance.now certificate.now }
    ensures { IfOk result (λ text. text.items ≡ lines_of (rows_of instance.now certificate.now)) }
{
    let begun = Line::new(alloc)?;
    let mut line = write_answer(begun, instance, certificate.answer)?;
    write_scale(&mut line, certificate.scale)?;
    write_unit(&mut line, certificate.unit)?;
    write_legs(&mut line, instance, &certificate.legs)?;
    write_trucks(&mut line, instance, &certificate.trucks)?;
    write_points(&mut line, instance, &certificate.points)?;
    write_tables(
        &mut line,
        instance,
        &certificate.tables,
        &certificate.spans,
        &certificate.gifts,
        &certificate.moments,
    )?;
    write_tree(&mut line, instance, &certificate.tree)?;
    write_end(&mut line)?;
    Ok(line.into_bytes())
}
