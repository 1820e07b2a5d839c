//! The rules of spans: their order, their weights, their money and their charges.
pub(crate) mod charge_rule;
pub(crate) mod held_money;
pub(crate) mod moment_runs;
pub(crate) mod money_rule;
pub(crate) mod paid_spans;
pub(crate) mod span_faults;
pub(crate) mod span_order;
pub(crate) mod weight_rule;
