//! The forced chain of a shipment, class by class.

ghost use Rattle.std.specs.Prelude.{ℕ, ◌≡◌, ◌<◌, IfOk, length};
ghost use Rattle.fp_model.specs.Numbered.{shipment_at};
ghost use Rattle.fp_longestarcs.specs.Networks.{class_count};
ghost use Rattle.fp_longestarcs.specs.Whole.{IsWholeNetwork};
ghost use Rattle.fp_allowed.specs.Bits.{row_allows};
ghost use Rattle.fp_allowed.specs.Chains.{IsForced};

use crate::NoMemory;
use crate::chain_ends::{Chain, ChainEnd};
use crate::exits::{Leaving, leaving_from};
use fp_longestarcs::Network;
use fp_model::Instance;
use fp_rows::Row;
use std::alloc::Global;

// The forced chain of a shipment under the classes that a row allows.
pub(crate) fn forced_chain(
    alloc: Global,
    instance: &Instance,
    network: &Network,
    shipment: u32,
    row: &Row,
) -> Result<Chain, NoMemory>
    requires shipment { shipment < length instance.now.shipments }
    requires whole { IsWholeNetwork instance.now network.now }
    requires long { length row.now ≡ class_count network.now }
    ensures { IfOk result (IsForced instance.now network.now (row_allows network.now row.now) (shipment_at instance.now shipment)) }
{
    let there = instance.shipment(shipment).to;
    let mut here = instance.shipment(shipment).from;
    let mut met = vec![in alloc; false; instance.terminals().len()]?;
    let mut classes = Vec::new(alloc);
    while here != there {
        if met[here as usize] {
            return Ok(Chain {
                classes,
                end: ChainEnd::Stuck { terminal: here },
            });
        }
        match leaving_from(instance, network, here, row) {
            Leaving::Nothing => {
                return Ok(Chain {
                    classes,
                    end: ChainEnd::Stuck { terminal: here },
                });
            }
            Leaving::Several => {
                return Ok(Chain {
                    classes,
                    end: ChainEnd::Several { terminal: here },
                });
            }
            Leaving::One { class, arc } => {
                met[here as usize] = true;
                classes.push(class)?;
                here = instance.arc(arc).to;
            }
        }
    }
    Ok(Chain {
        classes,
        end: ChainEnd::Reached,
    })
}
