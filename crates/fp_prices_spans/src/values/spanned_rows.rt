//! Which classes are priced by spans at a leaf.
ghost use Rattle.std.specs.Prelude.{ℕ, ◌≡◌, ◌<◌, ◌≤◌, ◌||◌, ◌&&◌, All, IfOk, List, length, not};
ghost use Rattle.fp_longestarcs.specs.Networks.{class_count};
ghost use Rattle.fp_model.specs.declared.parts.Leg.{Leg};
ghost use Rattle.fp_model.specs.Costs.{all_legs, has_leg};
ghost use Rattle.fp_allowed.specs.Bits.{bit_of};
ghost use Rattle.fp_allowed.specs.Listing.{class_at};
ghost use Rattle.fp_prices.specs.LeafPricings.{AreChainsOf};
ghost use Rattle.fp_prices_spans.specs.ClassRanges.{IsSpannedRow, in_range};
ghost use Rattle.fp_prices_spans.specs.SpanLists.{IsSpanOf};

use crate::NoMemory;
use crate::spans::Span;
use crate::values::class_ranges::{ClassRange, range_of};
use fp_prices::LeafPricing;
use fp_rows::Row;
use std::alloc::Global;

// Sets the bits of those classes of a range that aren't forced.
fn mark(pricing: &LeafPricing, range: ClassRange, row: &mut Row)
    requires order { range.first ≤ range.end }
    requires within { range.end ≤ class_count pricing.now.leaf.setting.network }
    requires long { length row.old ≡ class_count pricing.now.leaf.setting.network }
    ensures long { length row.new ≡ length row.old }
    ensures told { (chains : List (List Leg)) → AreChainsOf pricing.now.leaf pricing.now.forced chains →
        (n : ℕ) → n < class_count pricing.now.leaf.setting.network → bit_of row.new n ≡ (bit_of row.old n
        || (in_range range n && not (has_leg (class_at pricing.now.leaf.setting.network n) (all_legs chains)))) }
{
    for class in range.first..range.end {
        if pricing.forced_load(class).is_none() {
            row.set(class, true);
        }
    }
}

/// One bit for each class of the leaf's network, set exactly where the class is priced by the spans:
/// where one of them holds for it and it isn't forced. `NoMemory` only where no memory is found.
pub fn spanned_row(alloc: Global, pricing: &LeafPricing, spans: &[Span]) -> Result<Row, NoMemory>
    requires { All (IsSpanOf pricing.now.leaf.setting.problem) spans.now }
    ensures { IfOk result (IsSpannedRow pricing.now spans.now) }
{
    let round = pricing.leaf().round();
    let mut row = Row::new(alloc, round.network().classes())?;
    for span in spans {
        let range = range_of(round.instance(), round.network(), span);
        mark(pricing, range, &mut row);
    }
    Ok(row)
}
