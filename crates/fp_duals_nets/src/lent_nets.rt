//! The nets of one leaf, made once for all searches at it.

use crate::NoMemory;
use crate::leaf_nets::LeafNets;
use crate::nets::steps::Heads;
use fp_prices::Leaf;
use std::alloc::Global;
use std::marker::Model;

/// The nets of one leaf, which are made when a search first asks for them and then lent to each that
/// asks again. A search leaves costs, pools and labels in them, and takes none that it didn't put in: so
/// to contracts they're the same after each call, also after `NoMemory`, made or not.
#[derive(Drop)]
pub struct LentNets {
    by_classes: Option<LeafNets>,
    within_windows: Option<LeafNets>,
}

// The nets of a leaf by such heads, which are made where they aren't yet.
fn lent<'a>(
    alloc: Global,
    leaf: &Leaf,
    made: &'a mut Option<LeafNets>,
    heads: Heads,
) -> Result<&'a mut LeafNets, NoMemory> {
    let nets = match made.take() {
        Some(nets) => nets,
        None => LeafNets::of(alloc, leaf, heads)?,
    };
    Ok(made.insert(nets))
}

impl Model for LentNets {
    ghost use Rattle.std.specs.Prelude.{⊤};

    ghost Value = { ⊤ };

    ghost view = { λ _. tt };
}

impl LentNets {
    /// Nets that aren't made yet. Takes no memory.
    pub fn new() -> LentNets {
        LentNets {
            by_classes: None,
            within_windows: None,
        }
    }

    /// The nets of a leaf by the heads of its classes, the same leaf each time: what it is worth by
    /// tables goes over them. `NoMemory` only where no memory is found.
    pub fn at(&mut self, alloc: Global, leaf: &Leaf) -> Result<&mut LeafNets, NoMemory> {
        lent(alloc, leaf, &mut self.by_classes, Heads::OfClasses)
    }

    /// The nets of a leaf by the heads within each shipment's windows, the same leaf each time: what it
    /// is worth by spans goes over them. `NoMemory` only where no memory is found.
    pub fn within(&mut self, alloc: Global, leaf: &Leaf) -> Result<&mut LeafNets, NoMemory> {
        lent(alloc, leaf, &mut self.within_windows, Heads::WithinWindows)
    }
}
