// Which types are inferred and not declared.
ghost use Rattle.std.specs.Prelude.{◌≤◌, IfOk, IsTrue, ◌↔◌, List, ℕ, Contains};
ghost use Rattle.lw_grammar.specs.Written.{IsInferredType};
ghost use Rattle.lw_grammar.specs.Size.{size};
ghost use Rattle.lw_numbers.specs.Tables.{AreNumbersOf};
ghost use Rattle.lw_properties.specs.Mixing.{IsFree};
ghost use Rattle.lw_flow.specs.Recorded.{AreWaysOf};
ghost use Rattle.lw_types.specs.Seeing.{AreFreeTypes};

use indexmap::IndexSet;
use lw_base::{Name, NoMemory, TypeId};
use lw_flow::Ways;
use lw_grammar::Grammar;
use lw_numbers::Numbers;
use lw_properties::{inferred_types, is_declared, leaf_places};
use std::alloc::Global;

/// A flag for each type, by its number: it is inferred and not declared.
pub(crate) fn free_types(
    alloc: Global,
    g: &Grammar,
    numbers: &Numbers,
    ways: &Ways,
) -> Result<Vec<bool>, NoMemory>
    requires numbers { AreNumbersOf g.now numbers.now }
    requires ways { AreWaysOf g.now ways.now }
    ensures { IfOk result (λ free. AreFreeTypes g.now free.items) }
{
    let places = leaf_places(alloc, g, ways)?;
    let inferred = inferred_types(alloc, g, places.as_slice())?;
    let mut free = Vec::new(alloc);
    for number in 0..numbers.type_count() {
        let name = numbers.type_name(TypeId(number as u16));
        free.push(is_free(g, numbers, &inferred, name))?;
    }
    Ok(free)
}

fn is_free(g: &Grammar, numbers: &Numbers, inferred: &IndexSet<Name>, name: &Name) -> bool
    requires numbers { AreNumbersOf g.now numbers.now }
    requires inferred { (name : List ℕ) → Contains inferred.now.keys name ↔ IsInferredType g.now name }
    ensures { IsTrue result ↔ IsFree g.now name.now }
{
    inferred.contains(name) && !is_declared(g, numbers, name)
}
