//! What a unit of size pays for each arc by the linear price.
ghost use Rattle.std.specs.Prelude.{◌≡◌, ◌*◌, ◌/◌, IfOk, map};
ghost use Rattle.fp_model.specs.declared.parts.Arc.{Arc};
ghost use Rattle.fp_model.specs.Problem.{IsValid};
ghost use Rattle.fp_prices.specs.Rates.{rate_of};

use crate::NoMemory;
use fp_model::Instance;
use std::alloc::Global;

/// For each arc what a unit of size pays by the linear price: the truck's cost, in parts of a unit
/// of money, divided by the truck's capacity and rounded down. `NoMemory` only where no memory is
/// found.
pub(crate) fn linear_rates(alloc: Global, instance: &Instance) -> Result<Vec<u128>, NoMemory>
    ensures valid { IsValid instance.now }
    ensures rates { IfOk result (λ rates. rates.items ≡ map (rate_of instance.now.scale) instance.now.arcs) }
{
    let scale = u128::from(instance.scale());
    let mut rates = Vec::with_capacity(alloc, instance.arcs().len())?;
    for arc in instance.arcs() {
        rates.push(scale * u128::from(arc.truck) / u128::from(arc.capacity))?;
    }
    Ok(rates)
}
