//! Tables by which a leaf may be worth plainly what it is worth with forced classes paid whole.
//!
//! The shipments of a forced class go by it whatever they pay, so the first of them can pay its truck
//! alone, where one truck holds them all. What is proposed is tested by the value of the leaf; nothing is
//! promised of it.

use crate::NoMemory;
use fp_longestarcs::Stop;
use fp_model::Instance;
use fp_prices::{Kind, Leaf, Share, Table, Weight};
use std::alloc::Global;

// The first shipment whose chain has a class, and the sizes in all of those whose chains have it.
#[derive(Clone, Copy)]
struct Payer {
    shipment: u32,
    load: u64,
}

// A share that a table may have. One that isn't kept stands for none, and so does a later one of the
// same class.
#[derive(Drop)]
struct Entry {
    share: Share,
    kept: bool,
    first: bool,
}

// Adds the chain, by the numbers of its classes, of a shipment.
fn add_chain(payers: &mut [Option<Payer>], classes: &[u32], shipment: u32, size: u64) {
    for class in classes {
        if let Some(payer) = payers.get_mut(*class as usize) {
            let before = payer.unwrap_or(Payer { shipment, load: 0 });
            *payer = Some(Payer {
                shipment: before.shipment,
                load: before.load.saturating_add(size),
            });
        }
    }
}

// For each class, by its number, who may pay its truck, where some chain has it.
fn payers_of(alloc: Global, leaf: &Leaf) -> Result<Vec<Option<Payer>>, NoMemory> {
    let instance = leaf.round().instance();
    let classes = leaf.round().network().classes() as usize;
    let mut payers = vec![in alloc; None; classes]?;
    for shipment in 0..instance.shipments().len() as u32 {
        let chain = leaf.chain(alloc, shipment)?;
        let size = instance.shipment(shipment).size;
        add_chain(&mut payers, &chain.classes, shipment, size);
    }
    Ok(payers)
}

// The entry of a class that is forced: the payer pays one truck, where it holds all that is forced.
fn entry_of(
    alloc: Global,
    instance: &Instance,
    stop: Stop,
    payer: Payer,
) -> Result<Option<Entry>, NoMemory> {
    let Some(arc) = instance.arcs().get(stop.arc as usize) else {
        return Ok(None);
    };
    let mut weights = Vec::new(alloc);
    weights.push(Weight {
        shipment: payer.shipment,
        w: u128::from(instance.scale()) * u128::from(arc.truck),
    })?;
    Ok(Some(Entry {
        share: Share {
            arc: stop.arc,
            point: stop.point,
            v: 0,
            weights,
        },
        kept: payer.load <= arc.capacity,
        first: true,
    }))
}

// The entries of the classes that are forced at a leaf.
fn forced_entries(alloc: Global, leaf: &Leaf) -> Result<Vec<Entry>, NoMemory> {
    let network = leaf.round().network();
    let payers = payers_of(alloc, leaf)?;
    let mut entries = Vec::new(alloc);
    for class in 0..network.classes() {
        if let Some(Some(payer)) = payers.get(class as usize) {
            let (arc, point) = network.of_class(class);
            let stop = Stop { arc, point };
            if let Some(entry) = entry_of(alloc, leaf.round().instance(), stop, *payer)? {
                entries.push(entry)?;
            }
        }
    }
    Ok(entries)
}

// Adds the shares of a table.
fn add_shares(alloc: Global, shares: &[Share], entries: &mut Vec<Entry>) -> Result<(), NoMemory> {
    for share in shares {
        let share = Share {
            arc: share.arc,
            point: share.point,
            v: share.v,
            weights: share.weights.to_vec(alloc)?,
        };
        entries.push(Entry {
            share,
            kept: true,
            first: false,
        })?;
    }
    Ok(())
}

// The kept ones among entries that stand by class, of each class the first.
fn kept_shares(alloc: Global, entries: Vec<Entry>) -> Result<Vec<Share>, NoMemory> {
    let mut shares = Vec::new(alloc);
    let mut last = None;
    for entry in entries {
        let Entry { share, kept, .. } = entry;
        let arc = share.arc;
        let point = share.point;
        if last != Some((arc, point)) && kept {
            shares.push(share)?;
        }
        last = Some((arc, point));
    }
    Ok(shares)
}

// The shares of the table that a kind names, if it names one.
fn shares_by(tables: &[Table], kind: Kind) -> &[Share] {
    match kind {
        Kind::Table { id } => match tables.get(id.wrapping_sub(1) as usize) {
            Some(table) => &table.shares,
            None => &[],
        },
        Kind::Linear | Kind::Even => &[],
    }
}

/// A table of the prices of a kind in which each forced class of a leaf is paid by one shipment that goes
/// by it, where one truck holds all that is forced; elsewhere such a class has linear prices.
pub(crate) fn steady_table(
    alloc: Global,
    leaf: &Leaf,
    tables: &[Table],
    kind: Kind,
) -> Result<Table, NoMemory> {
    let mut entries = forced_entries(alloc, leaf)?;
    add_shares(alloc, shares_by(tables, kind), &mut entries)?;
    entries.sort_unstable_by_key(|entry| (entry.share.arc, entry.share.point, !entry.first));
    let shares = kept_shares(alloc, entries)?;
    Ok(Table { shares })
}
