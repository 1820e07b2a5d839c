//! What terminals need.
ghost use Rattle.std.specs.Prelude.{ℕ, ◌≡◌, ◌<◌, ◌^◌, All, IfOk, length, nat_lt, sum_by, List};
ghost use Rattle.std.specs.List.{filter};
ghost use Rattle.fp_fleet.specs.declared.fleets.Begin.{Begin};
ghost use Rattle.fp_fleet.specs.declared.fleets.Need.{Need};
ghost use Rattle.fp_fleet.specs.Fleets.{BeginsAscend};
ghost use Rattle.fp_fleet.specs.NeedTables.{AreNoNeeds, IsNeedTable};
ghost use Rattle.fp_fleet.specs.Sweeps.{IsBeginBelow, IsTimetable};

use crate::NoMemory;
use crate::fleets::{Begin, Need};
use fp_model::Instance;
use fp_timetable::TruckLine;
use std::alloc::Global;

// No trucks for each of some terminals.
fn no_needs(alloc: Global, terminals: u32) -> Result<Vec<Need>, NoMemory>
    ensures { IfOk result (λ table. AreNoNeeds terminals table.items) }
{
    let mut table = Vec::new(alloc);
    for terminal in 0..terminals {
        table.push(Need {
            terminal,
            trucks: 0,
            at: 0,
        })?;
    }
    Ok(table)
}

// The needs of those terminals where trucks begin: how many, and the last moment when some do.
pub(crate) fn needs_of(
    alloc: Global,
    instance: &Instance,
    lines: &[TruckLine],
    begins: &[Begin],
) -> Result<Vec<Need>, NoMemory>
    requires timetable { IsTimetable instance.now lines.now }
    requires begins { All (IsBeginBelow (length lines.now)) begins.now }
    requires ascend { BeginsAscend begins.now }
    requires fits { sum_by (λ (b : Begin). b.count) begins.now < 2 ^ 128 }
    ensures { IfOk result (λ needs. (table : List Need)
        × IsNeedTable instance.now lines.now begins.now table
        × (needs.items ≡ filter (λ (n : Need). nat_lt 0 n.trucks) table)) }
{
    let mut table = no_needs(alloc, instance.terminals().len() as u32)?;
    for begin in begins {
        let line = &lines[begin.line as usize];
        let terminal = instance.arc(line.arc).from;
        let trucks = table[terminal as usize].trucks;
        table[terminal as usize] = Need {
            terminal,
            trucks: trucks + begin.count,
            at: line.depart,
        };
    }
    table
        .iter()
        .copied()
        .filter(|need| 0 < need.trucks)
        .collect(alloc)
}
