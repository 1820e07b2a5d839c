//! Whether needs are deficits that sum to a total.
ghost use Rattle.std.specs.Prelude.{ℕ, ◌≡◌, ◌+◌, ◌<◌, ◌^◌, ◌↔◌, All, IfOk, IsTrue, length, slice_index, sum_by};
ghost use Rattle.fp_model.specs.Problem.{IsValid};
ghost use Rattle.fp_timetable.specs.Lines.{TruckExists};
ghost use Rattle.fp_fleet.specs.declared.fleets.Need.{Need};
ghost use Rattle.fp_fleet.specs.Deficits.{arriving, leaving};
ghost use Rattle.fp_fleet.specs.Fleets.{AreDeficits, NeedsAscend};
ghost use Rattle.fp_fleet.specs.Rosters.{truck_total};

use crate::NoMemory;
use crate::arrivals::arrival_time;
use crate::fleets::Need;
use crate::orders::needs_ascend;
use fp_model::Instance;
use fp_timetable::TruckLine;
use std::alloc::Global;

// Whether the terminals of needs exist.
fn terminals_exist(instance: &Instance, needs: &[Need]) -> bool
    ensures exist { IsTrue result
        ↔ All (λ (n : Need). n.terminal < length instance.now.terminals) needs.now }
    ensures valid { IsValid instance.now }
{
    let terminals = instance.terminals().len();
    needs
        .iter()
        .all(|need| (need.terminal as usize) < terminals)
}

// Whether the trucks of needs sum to a total.
fn sums_to(needs: &[Need], total: u128) -> bool
    ensures { IsTrue result ↔ (sum_by (λ (n : Need). n.trucks) needs.now ≡ total) }
{
    let mut rest = total;
    for need in needs {
        if rest < need.trucks {
            return false;
        }
        rest -= need.trucks;
    }
    rest == 0
}

// The moment of each terminal's need, and 0 for a terminal without one.
fn need_moments(alloc: Global, instance: &Instance, needs: &[Need]) -> Result<Vec<u32>, NoMemory>
    requires ascend { NeedsAscend needs.now }
    requires exist { All (λ (n : Need). n.terminal < length instance.now.terminals) needs.now }
    ensures long { IfOk result (λ moments. length moments.items ≡ length instance.now.terminals) }
    ensures moments { IfOk result
        (λ moments. All (λ (n : Need). slice_index moments.items n.terminal ≡ n.at) needs.now) }
{
    let mut moments = vec![in alloc; 0u32; instance.terminals().len()]?;
    for need in needs {
        moments[need.terminal as usize] = need.at;
    }
    Ok(moments)
}

// The trucks that leave each terminal up to and with its moment, and those that arrive there.
fn flows(
    alloc: Global,
    instance: &Instance,
    lines: &[TruckLine],
    moments: &[u32],
) -> Result<(Vec<u128>, Vec<u128>), NoMemory>
    requires exist { All (TruckExists instance.now) lines.now }
    requires fits { truck_total lines.now < 2 ^ 128 }
    requires long { length moments.now ≡ length instance.now.terminals }
    ensures long { IfOk result (λ flows. (length flows.0.items ≡ length instance.now.terminals)
        × (length flows.1.items ≡ length instance.now.terminals)) }
    ensures leaving { IfOk result
        (λ flows. (v : ℕ) → v < length instance.now.terminals → slice_index flows.0.items v
        ≡ leaving instance.now lines.now v (slice_index moments.now v)) }
    ensures arriving { IfOk result
        (λ flows. (v : ℕ) → v < length instance.now.terminals → slice_index flows.1.items v
        ≡ arriving instance.now lines.now v (slice_index moments.now v)) }
{
    let mut leaving = vec![in alloc; 0u128; instance.terminals().len()]?;
    let mut arriving = vec![in alloc; 0u128; instance.terminals().len()]?;
    for line in lines {
        let arc = instance.arc(line.arc);
        let (tail, head) = (arc.from as usize, arc.to as usize);
        if line.depart <= moments[tail] {
            leaving[tail] += line.trucks;
        }
        if arrival_time(instance, line) <= u64::from(moments[head]) {
            arriving[head] += line.trucks;
        }
    }
    Ok((leaving, arriving))
}

// Whether the trucks of each need are above 0, and those that leave its terminal less those that
// arrive.
fn are_met(needs: &[Need], leaving: &[u128], arriving: &[u128]) -> bool
    requires leaving { All (λ (n : Need). n.terminal < length leaving.now) needs.now }
    requires arriving { All (λ (n : Need). n.terminal < length arriving.now) needs.now }
    ensures { IsTrue result
        ↔ All (λ (n : Need). (0 < n.trucks) × (slice_index leaving.now n.terminal
        ≡ slice_index arriving.now n.terminal + n.trucks)) needs.now }
{
    for need in needs {
        let terminal = need.terminal as usize;
        let (leave, arrive) = (leaving[terminal], arriving[terminal]);
        if need.trucks == 0 || leave < arrive || leave - arrive != need.trucks {
            return false;
        }
    }
    true
}

// Whether needs stand by their terminals, are deficits above 0, and sum to a total.
pub(crate) fn are_deficits(
    alloc: Global,
    instance: &Instance,
    lines: &[TruckLine],
    total: u128,
    needs: &[Need],
) -> Result<bool, NoMemory>
    requires exist { All (TruckExists instance.now) lines.now }
    requires fits { truck_total lines.now < 2 ^ 128 }
    ensures { IfOk result (λ yes. IsTrue yes ↔ AreDeficits instance.now lines.now total needs.now) }
{
    if !needs_ascend(needs) || !terminals_exist(instance, needs) || !sums_to(needs, total) {
        return Ok(false);
    }
    let moments = need_moments(alloc, instance, needs)?;
    let (leaving, arriving) = flows(alloc, instance, lines, moments.as_slice())?;
    Ok(are_met(needs, leaving.as_slice(), arriving.as_slice()))
}
