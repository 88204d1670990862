// The leaves of a grammar's rules, with what may come before them.
ghost use Rattle.std.specs.Prelude.{ℕ, ◌≡◌, ◌<◌, ◌↔◌, List, Some, IsTrue, IfOk, OnOk, length, map, slice_get};
ghost use Rattle.lw_grammar.specs.Leaves.{leaves};
ghost use Rattle.lw_faults.specs.Finding.{Finds};
ghost use Rattle.lw_flow.specs.declared.before.Before.{Before};
ghost use Rattle.lw_flow.specs.Recorded.{AreWaysOf};
ghost use Rattle.lw_properties.specs.Places.{spot_of, StandsIn, ArePlacesOf, IsComeTo};

use lw_base::NoMemory;
use lw_flow::{Before, Ways};
use lw_grammar::{Grammar, Rule};
use lw_numbers::leaves::{BodyLeaf, body_leaves};
use std::alloc::Global;

/// A leaf of a rule's body, and what may come before it.
#[derive(Clone, Copy, Drop)]
pub struct Place<'g> {
    pub rule: &'g Rule,
    pub leaf: BodyLeaf<'g>,
    pub before: &'g Before,
}

/// All leaves of a grammar.
pub fn places<'g>(alloc: Global, g: &'g Grammar, ways: &'g Ways) -> Result<Vec<Place<'g>>, NoMemory>
    requires { AreWaysOf g.now ways.now }
    ensures { IfOk result (λ places. ArePlacesOf g.now (map spot_of places.items)) }
{
    let mut places = Vec::new(alloc);
    for (number, rule) in g.rules.as_slice().iter().enumerate() {
        put_places(alloc, &mut places, ways, number, rule)?;
    }
    Ok(places)
}

/// Puts in those of the rule of this number.
fn put_places<'g>(
    alloc: Global,
    places: &mut Vec<Place<'g>>,
    ways: &'g Ways,
    number: usize,
    rule: &'g Rule,
) -> Result<(), NoMemory>
    requires number { number < length ways.now }
    requires row { (row : List Before) → slice_get ways.now number ≡ Some row → length row ≡ length (leaves rule.now.body) }
    ensures { OnOk result ((row : List Before) → slice_get ways.now number ≡ Some row →
        Finds (StandsIn rule.now (leaves rule.now.body) row) (map spot_of places.old.items) (map spot_of places.new.items)) }
{
    let leaves = body_leaves(alloc, &rule.body)?;
    for (place, leaf) in leaves.iter().enumerate() {
        let before = ways.before(number, place);
        places.push(Place {
            rule,
            leaf: *leaf,
            before,
        })?;
    }
    Ok(())
}

/// Whether some way comes to what has this before it.
pub fn is_come_to(before: &Before) -> bool
    ensures { IsTrue result ↔ IsComeTo before.now }
{
    before.first || before.behind
}
