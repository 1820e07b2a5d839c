//! The kinds of a certificate's lines.
ghost use Rattle.std.specs.Prelude.{◌≡◌};
ghost use Rattle.fp_certificate.specs.Kinds.{answer_kind, kind_of, split_kind};

use fp_records::Record;
use fp_records_fields::fields::{field_at, is_of_kind};

/// A kind of line.
#[derive(Clone, Copy)]
pub enum LineKind {
    /// `answer,direct,COST`
    Direct,
    /// `answer,optimal,COST`
    Optimal,
    /// `answer,unfinished,COST,BOUND,SPENT`
    Unfinished,
    /// `answer,infeasible,SHIPMENT,TIME`
    Infeasible,
    /// `scale,N`
    Scale,
    /// `unit,Q`
    Unit,
    /// `leg,SHIPMENT,FROM,TO,DEPART,ARRIVE`
    Leg,
    /// `truck,FROM,TO,DEPART,TRUCKS,LOAD`
    Truck,
    /// `point,TERMINAL,TIME,ROUND`
    Point,
    /// `table,ID`
    Table,
    /// `share,FROM,TO,POINT,V`
    Share,
    /// `span,FROM,TO,POINT,UNTIL,MONEY,CHARGE`
    Span,
    /// `weight,SHIPMENT,W`
    Weight,
    /// `group,MOMENT`
    Group,
    /// `gift,FROM,TO,POINT,UNTIL,SIDE,AMOUNT`
    Gift,
    /// `split,arc,SHIPMENT,FROM,TO`
    ByArc,
    /// `split,time,SHIPMENT,TERMINAL,AT`
    ByTime,
    /// `split,trucks,FROM,TO,POINT,UNTIL,N`
    ByTrucks,
    /// `split,way,SHIPMENT,FROM,TO`
    ByWay,
    /// `leaf,KIND,ROUND,MODE` or `leaf,KIND,ROUND,MODE,SIDES`
    Leaf,
    /// `narrow,KIND,ROUND,MODE` or `narrow,KIND,ROUND,MODE,WORTH`
    Narrow,
    /// `end`
    End,
}

// The kind of an answer, told by its second field.
fn answer_kind(word: &[u8]) -> Option<LineKind>
    ensures { result ≡ answer_kind word.now }
{
    if word == b"direct".as_slice() {
        Some(LineKind::Direct)
    } else if word == b"optimal".as_slice() {
        Some(LineKind::Optimal)
    } else if word == b"unfinished".as_slice() {
        Some(LineKind::Unfinished)
    } else if word == b"infeasible".as_slice() {
        Some(LineKind::Infeasible)
    } else {
        None
    }
}

// The kind of a split, told by its second field.
fn split_kind(word: &[u8]) -> Option<LineKind>
    ensures { result ≡ split_kind word.now }
{
    if word == b"arc".as_slice() {
        Some(LineKind::ByArc)
    } else if word == b"time".as_slice() {
        Some(LineKind::ByTime)
    } else if word == b"trucks".as_slice() {
        Some(LineKind::ByTrucks)
    } else if word == b"way".as_slice() {
        Some(LineKind::ByWay)
    } else {
        None
    }
}

/// The kind of a line, if it has one.
pub fn kind_of(line: &Record) -> Option<LineKind>
    ensures { result ≡ kind_of line.now }
{
    if is_of_kind(line, b"answer") {
        answer_kind(field_at(line, 1))
    } else if is_of_kind(line, b"scale") {
        Some(LineKind::Scale)
    } else if is_of_kind(line, b"unit") {
        Some(LineKind::Unit)
    } else if is_of_kind(line, b"leg") {
        Some(LineKind::Leg)
    } else if is_of_kind(line, b"truck") {
        Some(LineKind::Truck)
    } else if is_of_kind(line, b"point") {
        Some(LineKind::Point)
    } else if is_of_kind(line, b"table") {
        Some(LineKind::Table)
    } else if is_of_kind(line, b"share") {
        Some(LineKind::Share)
    } else if is_of_kind(line, b"span") {
        Some(LineKind::Span)
    } else if is_of_kind(line, b"weight") {
        Some(LineKind::Weight)
    } else if is_of_kind(line, b"group") {
        Some(LineKind::Group)
    } else if is_of_kind(line, b"gift") {
        Some(LineKind::Gift)
    } else if is_of_kind(line, b"split") {
        split_kind(field_at(line, 1))
    } else if is_of_kind(line, b"leaf") {
        Some(LineKind::Leaf)
    } else if is_of_kind(line, b"narrow") {
        Some(LineKind::Narrow)
    } else if is_of_kind(line, b"end") {
        Some(LineKind::End)
    } else {
        None
    }
}
