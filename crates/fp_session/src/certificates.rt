//! The certificate of a search that has ended.
ghost use Rattle.std.specs.Prelude.{◌≡◌, IfOk};
ghost use Rattle.fp_model.specs.Plans.{IsPlan};
ghost use Rattle.fp_session.specs.Certificates.{IsCertificate, named_scale};

use crate::NoMemory;
use crate::searches::Search;
use crate::tree_lines::tree_lines;
use fp_certificate_lines::{Answer, Certificate};
use fp_duals_leaves::Prices;
use fp_model::Instance;
use fp_model::limits::SCALE;
use fp_timetable::{legs, trucks};
use std::alloc::Global;

// The scale that the certificate of an instance names: none where it is 1,000,000.
fn named_scale(instance: &Instance) -> Option<u32>
    ensures { result ≡ named_scale instance.now.scale }
{
    let scale = instance.scale();
    if u128::from(scale) == SCALE {
        None
    } else {
        Some(scale)
    }
}

// The certificate of a search with an answer.
pub(crate) fn certificate(
    alloc: Global,
    search: &Search,
    prices: Prices,
    answer: Answer,
) -> Result<Certificate, NoMemory>
    requires { IsPlan search.now.instance 1 search.now.incumbent }
    ensures { IfOk result (IsCertificate search.now prices answer) }
{
    let legs = legs(alloc, &search.instance, &search.incumbent)?;
    let trucks = trucks(alloc, &search.instance, &search.incumbent)?;
    let points = search.points.added().to_vec(alloc)?;
    let tree = tree_lines(alloc, &search.tree)?;
    let (tables, spans, gifts, unit) = prices.into_parts();
    // The search prices no leaf by moments.
    let moments = vec![in alloc; false; tables.len()]?;
    Ok(Certificate {
        answer,
        scale: named_scale(&search.instance),
        unit,
        legs,
        trucks,
        points,
        tables,
        spans,
        gifts,
        moments,
        tree,
    })
}
