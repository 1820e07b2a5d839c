//! The legs that go by each line.
ghost use Rattle.std.specs.Prelude.{ℕ, ◌≡◌, ◌<◌, ◌≤◌, ◌^◌, ◌∷◌, ◌++◌, [], All, IfOk, OnOk, if◌then◌else◌, length, nat_eq};
ghost use Rattle.fp_base_lists.specs.Vectors.{lists_of};
ghost use Rattle.fp_yard.specs.Freight.{freight_at, legs_by, members_by};

use crate::NoMemory;
use fp_model::Member;
use std::alloc::Global;

// Adds a leg to those that go by a line.
fn add(freight: &mut Vec<Vec<Member>>, line: u32, member: Member) -> Result<(), NoMemory>
    requires { line < length freight.old.items }
    ensures count { OnOk result (length freight.new.items ≡ length freight.old.items) }
    ensures legs { OnOk result ((l : ℕ) → freight_at (lists_of freight.new.items) l
        ≡ freight_at (lists_of freight.old.items) l
        ++ (if nat_eq line l then member ∷ [] else [])) }
{
    freight[line as usize].push(member)?;
    Ok(())
}

// Adds the legs of a shipment.
fn add_journey(
    freight: &mut Vec<Vec<Member>>,
    shipment: u32,
    journey: &[u32],
) -> Result<(), NoMemory>
    requires exist { All (λ line. line < length freight.old.items) journey.now }
    requires few { length journey.now < 2 ^ 32 }
    ensures count { OnOk result (length freight.new.items ≡ length freight.old.items) }
    ensures legs { OnOk result ((l : ℕ) → freight_at (lists_of freight.new.items) l
        ≡ freight_at (lists_of freight.old.items) l ++ legs_by l shipment 0 journey.now) }
{
    for (leg, line) in journey.iter().enumerate() {
        let leg = leg as u32;
        add(freight, *line, Member { shipment, leg })?;
    }
    Ok(())
}

// Lists of legs for so many lines, each of them empty.
fn empty_lists(alloc: Global, lines: usize) -> Result<Vec<Vec<Member>>, NoMemory>
    ensures count { IfOk result (λ freight. length freight.items ≡ lines) }
    ensures none { IfOk result (λ freight. (l : ℕ) → freight_at (lists_of freight.items) l ≡ []) }
{
    let mut freight = Vec::with_capacity(alloc, lines)?;
    for _ in 0..lines {
        freight.push(Vec::new(alloc))?;
    }
    Ok(freight)
}

// The legs that go by each of so many lines, by shipment.
pub(crate) fn freight_lists(
    alloc: Global,
    lines: usize,
    journeys: &[Vec<u32>],
) -> Result<Vec<Vec<Member>>, NoMemory>
    requires exist { All (All (λ line. line < lines)) (lists_of journeys.now) }
    requires few { length journeys.now < 2 ^ 32 }
    requires short { All (λ journey. length journey < 2 ^ 32) (lists_of journeys.now) }
    ensures count { IfOk result (λ freight. length freight.items ≡ lines) }
    ensures legs { IfOk result (λ freight. (l : ℕ) → freight_at (lists_of freight.items) l
        ≡ members_by l 0 (lists_of journeys.now)) }
{
    let mut freight = empty_lists(alloc, lines)?;
    for (shipment, journey) in journeys.iter().enumerate() {
        add_journey(&mut freight, shipment as u32, journey)?;
    }
    Ok(freight)
}
