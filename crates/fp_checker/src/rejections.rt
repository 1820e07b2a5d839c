//! Why a certificate isn't accepted.
use crate::NoMemory;
use thiserror::Error;

/// Why a certificate isn't accepted.
#[derive(Clone, Copy, Debug, PartialEq, Eq, Error)]
pub enum Rejected {
    /// The part with this number is the first of those that apply to the answer and fail:
    ///
    /// - 1: the leg lines are in order, each arrives a travel time after it left, and they are a
    ///   plan in whole units within the windows.
    /// - 2: the stated cost is the plan's.
    /// - 3: the truck lines are the plan's departures, each with its trucks and its load.
    /// - 4: the points stand by their rounds, at most 8 in one, and each is neither an initial
    ///   one nor there twice.
    /// - 5: the shares and their weights are in order and keep the price rule; the spans beside
    ///   each table, with their weights and groups, are in order, keep the money rule, and their
    ///   charges pay by the windows and the initial points; and the unit divides what plans cost.
    /// - 6: the nodes are one tree of at most 100,000 splits, with at most 50,000 narrowings before
    ///   them.
    /// - 7: no leaf is worth less than the claim, under the bars of the narrowings on its way and at
    ///   itself.
    /// - 8: the named shipment can't arrive in time, and its fastest time is as told.
    ///
    /// 1 to 3 apply to a direct answer, 1 to 7 to an optimal and an unfinished one, 8 to an
    /// infeasible one.
    #[error("part {number} of the certificate fails")]
    Part { number: u32 },
    /// No memory was found.
    #[error("out of memory")]
    NoMemory,
}

// The numbers of the parts.
pub(crate) const PLAN: u32 = 1;

pub(crate) const COST: u32 = 2;

pub(crate) const TRUCKS: u32 = 3;

pub(crate) const POINTS: u32 = 4;

pub(crate) const PRICES: u32 = 5;

pub(crate) const TREE: u32 = 6;

pub(crate) const LEAVES: u32 = 7;

pub(crate) const BLOCKED: u32 = 8;

impl From<NoMemory> for Rejected {
    ghost use Rattle.std.specs.Prelude.{◌≡◌};
    ghost use Rattle.fp_checker.specs.declared.rejections.Rejected.TheVariants as rejected;

    ghost from_gives = { λ _ e. e ≡ rejected.NoMemory };

    fn from(_error: NoMemory) -> Rejected {
        Rejected::NoMemory
    }
}
