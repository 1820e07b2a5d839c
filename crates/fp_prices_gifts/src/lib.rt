//! Gifts: what a leaf is worth more, or less, because of its sides by trucks.
//!
//! Where at least n trucks leave by an arc in a run of times, a part of what each of them costs may be
//! left out of the prices, and counts n times instead. Where at most n leave, shipments may pay more
//! for a truck than it costs, and what they pay more counts n times against the leaf. Gifts are this
//! project's own. They count parts of a unit of money, of which the instance's scale makes one.
#![tactic(auto)]

mod bounds;
mod gifts;
mod laws;
mod moment_bounds;
mod money_rule;
mod numbers;
mod runs;
mod table_gifts;
mod truck_sums;
mod values;

pub use bounds::{gift_bound, gift_bound_of, is_plain};
pub use gifts::{Gift, MOST_GIFTS};
pub use laws::{
    charged_gifts_bound_plans, cheaper_plans_obey_bars, gift_leaves_have_one_value,
    gift_limit_is_a_number, gift_values_bound_plans, moment_leaves_bound_plans,
    moment_leaves_have_one_value, rules_without_gifts, sound_gifts_keep_rules,
    values_without_gifts,
};
pub use moment_bounds::{moment_bound_of, narrower_windows};
pub use money_rule::{GiftFault, check_gifts};
pub use numbers::gift_number;
pub use table_gifts::{TableGifts, gifts_beside};
pub use values::{gift_totals, gift_value};

/// The error of a call that finds no memory.
pub type NoMemory = std::alloc::AllocError;
