//! The money of the spans of an arc that hold at a moment, as the moment moves on.
ghost use Rattle.std.specs.Prelude.{ℕ, ◌≡◌, ◌+◌, ◌<◌, ◌≤◌, ◌∷◌, ◌++◌, ◌↔◌, List, All, IfNone, IfOk, IfSome, IsPermutation, IsTrue, MatchOption, [], length};
ghost use Rattle.std.specs.BinaryHeap.{IsHeap, heap_items, heap_len};
ghost use Rattle.fp_model.specs.declared.parts.Leg.{Leg};
ghost use Rattle.fp_prices_spans.specs.HeldMoney.{AreEnds, AreLeft, End, TellMoney, end_cmp, held_money as held_money_of};
ghost use Rattle.fp_prices_spans.specs.Spans.{ClassSpan};
ghost use Rattle.fp_prices_spans.specs.SpanPrices.{money_at};

use crate::NoMemory;
use crate::spans::Span;
use std::alloc::Global;
use std::cmp::Reverse;
use std::collections::BinaryHeap;

/// The spans of an arc that have begun and haven't ended: where each ends and its money, the first
/// end on top, and their money together.
#[derive(Drop)]
pub(crate) struct HeldMoney {
    ends: BinaryHeap<Reverse<(u32, u128)>>,
    total: u128,
}

// Takes the first end away where it isn't after a moment: its money.
fn pop_ended(ends: &mut BinaryHeap<Reverse<(u32, u128)>>, moment: u32) -> Option<u128>
    requires { IsHeap end_cmp (heap_items ends.old) }
    ensures some { IfSome result (λ money. (until : ℕ) × (until ≤ moment)
        × IsPermutation (heap_items ends.old) (record { 0 = (until, money) } ∷ heap_items ends.new)
        × IsHeap end_cmp (heap_items ends.new) × (heap_len ends.new + 1 ≡ heap_len ends.old)) }
    ensures none { IfNone result ((heap_items ends.new ≡ heap_items ends.old)
        × All (λ (e : End). moment < e.0.0) (heap_items ends.old)) }
{
    let until = ends.peek()?.0.0;
    if moment < until {
        return None;
    }
    let ended = ends.pop()?;
    Some(ended.0.1)
}

// The money of a span where it holds for some class.
fn held_money(span: &Span) -> u128
    ensures { result ≡ held_money_of span.now }
{
    if span.point < span.until {
        span.money
    } else {
        0
    }
}

// The sum of two numbers where it is within a limit. They may be any numbers.
fn sum_within(first: u128, second: u128, limit: u128) -> Option<u128>
    ensures { MatchOption result (limit < first + second)
        (λ sum. (sum ≡ first + second) × (sum ≤ limit)) }
{
    match first.checked_add(second) {
        Some(sum) => { if sum <= limit { Some(sum) } else { None } }
        None => None,
    }
}

impl HeldMoney {
    /// No spans.
    pub(crate) fn new(alloc: Global) -> HeldMoney
        ensures { (arc from : ℕ) → TellMoney [] arc from (heap_items result.ends) result.total }
    {
        HeldMoney {
            ends: BinaryHeap::new(alloc),
            total: 0,
        }
    }

    // Lets the spans go that end at a moment or before it.
    fn release(&mut self, moment: u32)
        requires { AreEnds (heap_items self.old.ends) self.old.total }
        ensures { AreLeft moment (heap_items self.old.ends) (heap_items self.new.ends) self.new.total }
    {
        while let Some(money) = pop_ended(&mut self.ends, moment) {
            self.total -= money;
        }
    }

    /// Goes on from a span to another: where that is of another arc, all spans so far are let go.
    pub(crate) fn turn(&mut self, last: &Span, span: &Span)
        ensures { (spans : List ClassSpan) →
            TellMoney spans last.now.arc last.now.point (heap_items self.old.ends) self.old.total →
            (last.now.arc ≡ span.now.arc → last.now.point ≤ span.now.point) →
            ((last.now.arc ≡ span.now.arc → ⊥) → (m : ℕ) → money_at spans (record { arc = span.now.arc; depart = m }) ≡ 0) →
            TellMoney spans span.now.arc span.now.point (heap_items self.new.ends) self.new.total }
    {
        if last.arc != span.arc {
            self.ends.clear();
            self.total = 0;
        }
    }

    /// One more span of the arc, at whose point the spans are counted: whether the money of those
    /// that hold there is within a limit. Where it isn't, they are of no more use. `NoMemory` only
    /// where no memory is found.
    pub(crate) fn take(&mut self, span: &Span, limit: u128) -> Result<bool, NoMemory>
        requires { AreEnds (heap_items self.old.ends) self.old.total }
        ensures within { (spans : List ClassSpan) →
            TellMoney spans span.now.arc span.now.point (heap_items self.old.ends) self.old.total →
            IfOk result (λ within. IsTrue within
            ↔ (money_at (spans ++ span.now ∷ []) (record { arc = span.now.arc; depart = span.now.point }) ≤ limit)) }
        ensures tells { (spans : List ClassSpan) →
            TellMoney spans span.now.arc span.now.point (heap_items self.old.ends) self.old.total →
            IfOk result (λ within. IsTrue within →
            TellMoney (spans ++ span.now ∷ []) span.now.arc span.now.point (heap_items self.new.ends) self.new.total) }
    {
        self.release(span.point);
        let money = held_money(span);
        match sum_within(self.total, money, limit) {
            None => Ok(false),
            Some(total) => {
                self.ends.push(Reverse((span.until, money)))?;
                self.total = total;
                Ok(true)
            }
        }
    }
}
