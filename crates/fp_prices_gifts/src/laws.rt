//! The theory of leaves under prices with gifts, as contracts without a body.
ghost use Rattle.std.specs.Prelude.{◌≡◌, ◌^◌};
ghost use Rattle.fp_prices_gifts.specs.GiftBars.{CheaperPlansObeyBars};
ghost use Rattle.fp_prices_gifts.specs.GiftLeaves.{ChargedGiftsBoundPlans, GiftLeavesHaveOneValue, GiftValuesBoundPlans, RulesWithoutGifts, SoundGiftsKeepRules, ValuesWithoutGifts};
ghost use Rattle.fp_prices_gifts.specs.MomentLeaves.{MomentLeavesBoundPlans, MomentLeavesHaveOneValue};

use crate::gifts::MOST_GIFTS;

/// No plan of a leaf costs less than the leaf is worth under prices with gifts, whoever finds the
/// value, and whatever the windows, the points, the sides, the kind of prices, the tables, the spans
/// and the gifts, plain or, without gifts, with forced classes paid whole.
///
/// A plan of a leaf lies within the windows and obeys the leaf's sides, those by trucks too. Its
/// departures may be any fractions of the unit of time. The value counts parts of a unit of money, so
/// it is compared with the scale times the plan's cost. The instance is valid, the shares of all
/// tables keep the price rule, the spans keep the set rule by these windows and by first points that
/// are all points of the leaf, and spans and gifts keep the money rule together.
pub fn gift_values_bound_plans()
    ensures { GiftValuesBoundPlans }
{}

/// The set rule is asked only of spans that are charged at the leaf: of those that hold for a class
/// that some shipment may use and that is in no forced chain.
///
/// Of the others only the money rule is asked, with the gifts, and the value bounds the leaf's plans as
/// in [`gift_values_bound_plans`].
pub fn charged_gifts_bound_plans()
    ensures { ChargedGiftsBoundPlans }
{}

/// Two values of one leaf under prices with gifts are the same number, and a leaf that is empty by its
/// heads has none.
///
/// So the value is decided by the instance, the windows, the points, the sides, the tables, the
/// spans, the gifts, the kind of prices and whether forced classes are paid whole.
pub fn gift_leaves_have_one_value()
    ensures { GiftLeavesHaveOneValue }
{}

/// No plan of a leaf costs less than the leaf is worth by moments, whoever finds the value, and a leaf
/// that is empty by moments has no plan.
///
/// By moments: by the windows that the leaf's sides narrow, where each span that is charged at the leaf
/// pays by these and by the leaf's points. The plans lie within the wider windows and obey the sides;
/// their departures may be any fractions of the unit of time. The instance is valid, the shares of all
/// tables keep the price rule, and the spans are in order and keep the money rule with the gifts.
pub fn moment_leaves_bound_plans()
    ensures { MomentLeavesBoundPlans }
{}

/// Two values of one leaf by moments are the same number, and a leaf that is empty by moments has none.
pub fn moment_leaves_have_one_value()
    ensures { MomentLeavesHaveOneValue }
{}

/// The plans of a leaf that cost less than an amount obey the leaf's bars by that amount, whoever finds them,
/// under prices with gifts and by moments.
///
/// Their departures may be any fractions of the unit of time. The instance is valid, the shares of all tables
/// keep the price rule, and spans and gifts keep the rules of [`gift_values_bound_plans`], or by moments those
/// of [`moment_leaves_bound_plans`].
pub fn cheaper_plans_obey_bars()
    ensures { CheaperPlansObeyBars }
{}

/// Without gifts, a number is the leaf's value here exactly where it is the leaf's value by spans.
pub fn values_without_gifts()
    ensures { ValuesWithoutGifts }
{}

/// Spans that are in order and whose charges pay, and gifts that keep the money rule with them, keep
/// the rules of spans and gifts, by the same windows and first points, whatever these are. The instance
/// is valid, and the spans are of arcs, and their weights of shipments, that exist.
///
/// So what [`crate::check_gifts`] and `check_charges` of spans find is what the bound asks, and of the
/// spans' own rules their order alone.
pub fn sound_gifts_keep_rules()
    ensures { SoundGiftsKeepRules }
{}

/// Spans that keep their own rules keep those with gifts, where there are none.
pub fn rules_without_gifts()
    ensures { RulesWithoutGifts }
{}

/// The limit of the amounts of all gifts together is this number.
pub fn gift_limit_is_a_number()
    ensures { MOST_GIFTS ≡ 2 ^ 90 }
{}
