//! Laws on what runs answer, without a body.
ghost use Rattle.std.specs.Prelude.{◌≡◌};
ghost use Rattle.fp_app.specs.Laws.{CheckAcceptsPlans, CheckAcceptsReplans};

use crate::limits::{CHECK_LIMIT, INSTANCE_LIMIT};

/// `check` accepts what `plan` and `improve` print: where the records of an input are those of an
/// instance and after them those of the text that one of them prints of it, the status that `check`
/// has for the input is 0, with memory and without a fault of its source and its sink.
///
/// The instance may be at any scale that fits it: the text names it. The search may be with the
/// option of spans or without it.
pub fn check_accepts_plans()
    ensures { CheckAcceptsPlans }
{}

/// `check` accepts what `replan` prints of kept legs or of a day that is under way, and what `improve` prints
/// of an answer that follows these: where the records of an input are those that were handed to `replan`, or
/// to `improve` before the answer, and after them those of the text that it prints of a plan, the status that
/// `check` has for the input is 0, with memory and without a fault of its source and its sink.
///
/// `improve` may be at any scale that fits the instance: the text names it.
pub fn check_accepts_replans()
    ensures { CheckAcceptsReplans }
{}

/// Each limit of inputs is this number of bytes.
pub fn input_limits_are_numbers()
    ensures instance { INSTANCE_LIMIT ≡ 16777216 }
    ensures check { CHECK_LIMIT ≡ 134217728 }
{}
