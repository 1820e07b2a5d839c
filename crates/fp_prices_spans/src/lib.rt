//! Prices of runs of classes: a span shares out a part of the truck's money over the classes of an
//! arc at several points, with one price a shipment and one charge for all of them.
//!
//! Shipments that may leave by an arc at one of several points are then priced once, whichever they
//! take, and what they pay beyond the trucks that hold them is charged once. A class is a timed arc
//! of Boland, Hewitt, Marshall and Savelsbergh, "The Continuous-Time Service Network Design
//! Problem", Operations Research 65, 2017; prices by spans are this project's own. Prices, money
//! and charges count parts of a unit of money, of which the instance's scale makes one.
#![tactic(auto)]

mod laws;
mod rules;
mod spans;
mod table_spans;
mod values;
mod ways;

pub use laws::{
    charged_pay_keep_set_rule, charged_spans_bound_plans, charges_keep_set_rule,
    sound_spans_keep_rules, span_leaves_have_one_value, span_values_bound_plans,
    span_weight_limit_is_a_number, values_without_spans,
};
pub use rules::charge_rule::check_charges;
pub use rules::money_rule::check_spans;
pub use rules::paid_spans::are_paid;
pub use rules::span_faults::SpanFault;
pub use spans::{MOST_SPAN_WEIGHT, Span};
pub use table_spans::{TableSpans, spans_beside};
pub use values::leaf_bases::bases;
pub use values::leaf_charges::after_charges;
pub use values::paid_leaves::charged_pay;
pub use values::rounds::span_bound_of;
pub use values::span_bounds::{span_bound, value_before_charges};
pub use values::span_costs::{SpanPricing, fill_costs, least_cost};
pub use values::spanned_rows::spanned_row;
pub use ways::{MOST_WAYS, leaf_ways, ways_fit};

/// The error of a call that finds no memory.
pub type NoMemory = std::alloc::AllocError;
