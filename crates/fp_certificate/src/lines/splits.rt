//! Lines `split,arc,SHIPMENT,FROM,TO`, `split,time,SHIPMENT,TERMINAL,AT`,
//! `split,trucks,FROM,TO,POINT,UNTIL,N` and `split,way,SHIPMENT,FROM,TO`.
ghost use Rattle.std.specs.Prelude.{◌≡◌, ◌<◌, Some, None, MatchResult};
ghost use Rattle.fp_records_fields.specs.Findings.{IsFirstFault, first_code};
ghost use Rattle.fp_records_fields.specs.Fields.{has_number};
ghost use Rattle.fp_tree.specs.declared.sides.Split.TheVariants.{ByArc, ByTime};
ghost use Rattle.fp_certificate.specs.Codes.{code_of};
ghost use Rattle.fp_records_fields.specs.NamedParts.{arc_in, shipment_in};
ghost use Rattle.fp_certificate.specs.Trees.{by_arc_faults, by_arc_in, by_time_faults, by_time_in, by_trucks_faults, by_trucks_in, by_way_faults, by_way_in, with_node};

use crate::drafts::Draft;
use crate::lines::faults::LineFault;
use crate::lines::fields::{end_at, have_numbers, time_at};
use crate::lines::sections::Section;
use fp_certificate_lines::Node;
use fp_records::Record;
use fp_records_fields::digits::short_between;
use fp_records_fields::fields::{field_at, has_fields, has_number};
use fp_records_fields::{Lookup, RecordError};
use fp_tree::Split;

// The numbers of the shipment and the arc of `split,arc,SHIPMENT,FROM,TO` or `split,way,SHIPMENT,FROM,TO`, or
// the first of the line's faults.
fn shipment_arc_of(
    lookup: &Lookup<'_>,
    draft: &Draft,
    line: &Record,
) -> Result<(u32, u32), LineFault>
    ensures { MatchResult result
        (λ pair. (first_code (by_arc_faults lookup.now draft.now line.now) ≡ None)
        × (pair.0 ≡ shipment_in lookup.now line.now 2) × (pair.1 ≡ arc_in lookup.now line.now 3 4))
        (λ fault. first_code (by_arc_faults lookup.now draft.now line.now) ≡ Some (code_of fault)) }
{
    if !has_fields(line, 5) {
        return Err(LineFault::Fields);
    }
    if draft.is_misplaced(Section::Tree) {
        return Err(LineFault::Order);
    }
    let Some(shipment) = lookup.shipment_at(line, 2) else {
        return Err(LineFault::Name);
    };
    let Some(arc) = lookup.arc_at(line, 3, 4) else {
        return Err(LineFault::Name);
    };
    Ok((shipment, arc))
}

/// Adds the node of `split,arc,SHIPMENT,FROM,TO`, or tells the first of the line's faults.
pub fn read_by_arc(
    lookup: &Lookup<'_>,
    draft: &mut Draft,
    line: &Record,
) -> Result<(), RecordError<LineFault>>
    ensures { MatchResult result
        (λ _. (first_code (by_arc_faults lookup.now draft.old line.now) ≡ None)
        × (draft.new ≡ with_node draft.old (by_arc_in lookup.now line.now)))
        (λ e. IsFirstFault code_of e (first_code (by_arc_faults lookup.now draft.old line.now))) }
{
    let (shipment, arc) = shipment_arc_of(lookup, draft, line)?;
    let split = Split::ByArc { shipment, arc };
    draft.add_node(Node::Branch { split })?;
    Ok(())
}

/// Adds the node of `split,way,SHIPMENT,FROM,TO`, or tells the first of the line's faults.
pub fn read_by_way(
    lookup: &Lookup<'_>,
    draft: &mut Draft,
    line: &Record,
) -> Result<(), RecordError<LineFault>>
    ensures { MatchResult result
        (λ _. (first_code (by_way_faults lookup.now draft.old line.now) ≡ None)
        × (draft.new ≡ with_node draft.old (by_way_in lookup.now line.now)))
        (λ e. IsFirstFault code_of e (first_code (by_way_faults lookup.now draft.old line.now))) }
{
    let (shipment, arc) = shipment_arc_of(lookup, draft, line)?;
    let split = Split::ByWay { shipment, arc };
    draft.add_node(Node::Branch { split })?;
    Ok(())
}

// The node of `split,time,SHIPMENT,TERMINAL,AT`, or the first of the line's faults.
fn by_time_of(lookup: &Lookup<'_>, draft: &Draft, line: &Record) -> Result<Node, LineFault>
    ensures { MatchResult result
        (λ node. (first_code (by_time_faults lookup.now draft.now line.now) ≡ None) × (node ≡ by_time_in lookup.now line.now))
        (λ fault. first_code (by_time_faults lookup.now draft.now line.now) ≡ Some (code_of fault)) }
{
    if !has_fields(line, 5) {
        return Err(LineFault::Fields);
    }
    if !has_number(line, 4) {
        return Err(LineFault::Digits);
    }
    if draft.is_misplaced(Section::Tree) {
        return Err(LineFault::Order);
    }
    let Some(shipment) = lookup.shipment_at(line, 2) else {
        return Err(LineFault::Name);
    };
    let Some(terminal) = lookup.terminal_at(line, 3) else {
        return Err(LineFault::Name);
    };
    let Some(at) = time_at(line, 4) else {
        return Err(LineFault::Range);
    };
    Ok(Node::Branch {
        split: Split::ByTime {
            shipment,
            terminal,
            at,
        },
    })
}

/// Adds the node of `split,time,SHIPMENT,TERMINAL,AT`, or tells the first of the line's faults.
pub fn read_by_time(
    lookup: &Lookup<'_>,
    draft: &mut Draft,
    line: &Record,
) -> Result<(), RecordError<LineFault>>
    ensures { MatchResult result
        (λ _. (first_code (by_time_faults lookup.now draft.old line.now) ≡ None)
        × (draft.new ≡ with_node draft.old (by_time_in lookup.now line.now)))
        (λ e. IsFirstFault code_of e (first_code (by_time_faults lookup.now draft.old line.now))) }
{
    let node = by_time_of(lookup, draft, line)?;
    draft.add_node(node)?;
    Ok(())
}

// The node of `split,trucks,FROM,TO,POINT,UNTIL,N`, or the first of the line's faults.
fn by_trucks_of(lookup: &Lookup<'_>, draft: &Draft, line: &Record) -> Result<Node, LineFault>
    ensures { MatchResult result
        (λ node. (first_code (by_trucks_faults lookup.now draft.now line.now) ≡ None) × (node ≡ by_trucks_in lookup.now line.now))
        (λ fault. first_code (by_trucks_faults lookup.now draft.now line.now) ≡ Some (code_of fault)) }
{
    if !has_fields(line, 7) {
        return Err(LineFault::Fields);
    }
    if !have_numbers(line, 4, 5) || !has_number(line, 6) {
        return Err(LineFault::Digits);
    }
    if draft.is_misplaced(Section::Tree) {
        return Err(LineFault::Order);
    }
    let Some(arc) = lookup.arc_at(line, 2, 3) else {
        return Err(LineFault::Name);
    };
    let Some(point) = time_at(line, 4) else {
        return Err(LineFault::Range);
    };
    let Some(until) = end_at(line, 4, 5, point) else {
        return Err(LineFault::Range);
    };
    let Some(most) = short_between(field_at(line, 6), 0, u32::MAX) else {
        return Err(LineFault::Range);
    };
    Ok(Node::Branch {
        split: Split::ByTrucks {
            arc,
            point,
            until,
            most,
        },
    })
}

/// Adds the node of `split,trucks,FROM,TO,POINT,UNTIL,N`, or tells the first of the line's faults.
pub fn read_by_trucks(
    lookup: &Lookup<'_>,
    draft: &mut Draft,
    line: &Record,
) -> Result<(), RecordError<LineFault>>
    ensures { MatchResult result
        (λ _. (first_code (by_trucks_faults lookup.now draft.old line.now) ≡ None)
        × (draft.new ≡ with_node draft.old (by_trucks_in lookup.now line.now)))
        (λ e. IsFirstFault code_of e (first_code (by_trucks_faults lookup.now draft.old line.now))) }
{
    let node = by_trucks_of(lookup, draft, line)?;
    draft.add_node(node)?;
    Ok(())
}
