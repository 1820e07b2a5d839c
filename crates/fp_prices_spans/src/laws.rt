//! The theory of leaves under prices by spans, as contracts without a body.
ghost use Rattle.std.specs.Prelude.{◌≡◌, ◌^◌};
ghost use Rattle.fp_prices_spans.specs.PaidLeaves.{ChargedPayKeepSetRule};
ghost use Rattle.fp_prices_spans.specs.SpanCharges.{ChargesKeepSetRule, SoundSpansKeepRules};
ghost use Rattle.fp_prices_spans.specs.SpanLeaves.{ChargedSpansBoundPlans, SpanLeavesHaveOneValue, SpanValuesBoundPlans, ValuesWithoutSpans};

use crate::spans::MOST_SPAN_WEIGHT;

/// No plan of a leaf costs less than the leaf is worth under prices by spans, whoever finds the
/// value, and whatever the windows, the points, the sides, the kind of prices, the tables and the
/// spans, plain or with forced classes paid whole.
///
/// A plan of a leaf lies within the windows and obeys the leaf's sides. Its departures may be any
/// fractions of the unit of time. The value counts parts of a unit of money, so it is compared with
/// the scale times the plan's cost. The instance is valid, the shares of all tables keep the price
/// rule, and the spans keep the money rule and, by these windows and by first points that are all
/// points of the leaf, the set rule. That a leaf that is empty by its heads has no plan is said of
/// [`span_bound`](crate::span_bound).
pub fn span_values_bound_plans()
    ensures { SpanValuesBoundPlans }
{}

/// The set rule is asked only of spans that are charged at the leaf: of those that hold for a class
/// that some shipment may use and that is in no forced chain.
///
/// Of the others only the money rule is asked, and the value bounds the leaf's plans as in
/// [`span_values_bound_plans`].
pub fn charged_spans_bound_plans()
    ensures { ChargedSpansBoundPlans }
{}

/// Two values of one leaf under prices by spans are the same number, and a leaf that is empty by its
/// heads has none.
///
/// So the value is decided by the instance, the windows, the points, the sides, the tables, the
/// spans, the kind of prices and whether forced classes are paid whole.
pub fn span_leaves_have_one_value()
    ensures { SpanLeavesHaveOneValue }
{}

/// Without spans, a number is the leaf's value here exactly where it is the leaf's value by the
/// tables and the kind.
pub fn values_without_spans()
    ensures { ValuesWithoutSpans }
{}

/// Spans that are in order with their weights and groups, keep the money rule, and whose charges
/// pay, keep both rules of spans, by the same windows and first points, whatever these are. The
/// instance is valid, and the spans are of arcs, and their weights of shipments, that exist.
///
/// So what [`crate::check_spans`] and [`crate::check_charges`] find is what the bound asks. They
/// ask more: a charge pays where the sizes of a set are counted in grains, rounded down, and the
/// rule asks for the true size of the set.
pub fn sound_spans_keep_rules()
    ensures { SoundSpansKeepRules }
{}

/// Spans that are in order with their weights and groups, and whose charges pay, keep the set rule, by
/// the same windows and first points, whatever these are and whatever money the spans have.
///
/// So it is known too of spans that keep another money rule, as they do beside gifts. The instance is
/// valid, and the spans are of arcs, and their weights of shipments, that exist.
pub fn charges_keep_set_rule()
    ensures { ChargesKeepSetRule }
{}

/// Of spans that are in order, those that are charged at a leaf keep the set rule where their
/// charges pay, by whatever windows and points: the leaf's own too. The instance is valid, and the
/// spans are of arcs, and their weights of shipments, that exist.
pub fn charged_pay_keep_set_rule()
    ensures { ChargedPayKeepSetRule }
{}

/// The limit of the weights of all spans together is this number.
pub fn span_weight_limit_is_a_number()
    ensures { MOST_SPAN_WEIGHT ≡ 2 ^ 100 }
{}
