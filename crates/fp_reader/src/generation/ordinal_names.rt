//! Names of a letter and an ordinal.
ghost use Rattle.std.specs.Prelude.{◌≡◌, ◌+◌, ◌<◌, ◌≤◌, ◌^◌, IfOk, codes, map};
ghost use Rattle.std.specs.List.{range_with_len};
ghost use Rattle.fp_model.specs.Names.{IsName};
ghost use Rattle.fp_reader.specs.Generator.{ordinal_name};

use crate::NoMemory;
use fp_model::Name;
use std::alloc::Global;

// The name of a letter and the ordinal of a number, which is one more.
fn ordinal_name(alloc: Global, letter: &str, number: u32) -> Result<Name, NoMemory>
    requires number { number + 1 < 2 ^ 32 }
    requires name { IsName (ordinal_name letter.now number) }
    ensures { IfOk result (λ name. name ≡ ordinal_name letter.now number) }
{
    let text = format!(in alloc; "{letter}{}", number + 1)?;
    Name::new(alloc, text.as_bytes())
}

/// The name of a shipment of the generator: `S` and its ordinal.
pub fn shipment_name(alloc: Global, number: u32) -> Result<Name, NoMemory>
    requires { number < 500 }
    ensures { IfOk result (λ name. name ≡ ordinal_name (codes "S") number) }
{
    ordinal_name(alloc, "S", number)
}

/// The names of the terminals of the generator: `T` and their ordinals.
pub fn terminal_names(alloc: Global, terminals: u32) -> Result<Vec<Name>, NoMemory>
    requires { terminals ≤ 100 }
    ensures { IfOk result (λ names. names.items ≡ map (ordinal_name (codes "T")) (range_with_len 0 terminals)) }
{
    let mut names = Vec::new(alloc);
    for number in 0..terminals {
        names.push(ordinal_name(alloc, "T", number)?)?;
    }
    Ok(names)
}
