// The interfaces above a type, each once.
ghost use Rattle.std.specs.Prelude.{◌≡◌, ◌++◌, OnOk, IfOk, map, reverse};
ghost use Rattle.lw_numbers.specs.Tables.{AreNumbersOf};
ghost use Rattle.lw_properties.specs.Search.{Follows, names_above};

use crate::declarations::interface_of;
use indexmap::IndexSet;
use lw_base::{Name, NoMemory};
use lw_grammar::{Grammar, Interface};
use lw_numbers::Numbers;
use std::alloc::Global;

/// The interfaces whose attributes a type has, its own first, each once. It is linear in their number, as expected.
pub fn lineage<'g>(
    alloc: Global,
    g: &'g Grammar,
    numbers: &Numbers,
    type_name: &'g Name,
) -> Result<Vec<&'g Interface>, NoMemory>
    requires { AreNumbersOf g.now numbers.now }
    ensures { IfOk result (λ order. Follows g.now type_name.now (map (λ i. i.now) order.items)) }
{
    let mut order = Vec::new(alloc);
    let mut seen = IndexSet::new(alloc);
    let mut waiting = Vec::new(alloc);
    waiting.push(type_name)?;
    while let Some(name) = waiting.pop() {
        if let Some((number, own)) = interface_of(g, numbers, name) {
            if seen.insert(number)? {
                order.push(own)?;
                put_above(&mut waiting, own)?;
            }
        }
    }
    Ok(order)
}

/// Puts what an interface extends behind what waits, the first last.
fn put_above<'g>(waiting: &mut Vec<&'g Name>, own: &'g Interface) -> Result<(), NoMemory>
    ensures { OnOk result (reverse (map (λ n. n.now) waiting.new.items)
        ≡ names_above own.now ++ reverse (map (λ n. n.now) waiting.old.items)) }
{
    for (name, _) in own.above.as_slice().iter().rev() {
        waiting.push(name)?;
    }
    Ok(())
}
