// What an element may do.
ghost use Rattle.std.specs.Prelude.{[], ◌≡◌, ◌↔◌, ◌<◌, ℕ, Some, IfOk, Contains, length, slice_get};
ghost use Rattle.lw_numbers.specs.Tables.{AreNumbersOf};
ghost use Rattle.lw_numbers.specs.Kinship.{AreNodeRules};
ghost use Rattle.lw_flow.specs.declared.effect.Effect.{Effect};
ghost use Rattle.lw_flow.specs.Passing.{CallDoes, Does, DoesFirst, DoesTurns};
ghost use Rattle.lw_flow.specs.Rows.{InTable};
ghost use Rattle.lw_flow.specs.Sets.{AddsFrom};

use crate::callee::{Callee, Source};
use crate::effect::Effect;
use crate::sets::{copied, joined_effects, put_all, put_effect};
use indexmap::IndexSet;
use lw_base::{Name, NoMemory};
use lw_grammar::Element;
use std::alloc::Global;

/// A set of one effect.
fn alone(alloc: Global, effect: Effect) -> Result<IndexSet<Effect>, NoMemory>
    ensures { IfOk result (λ set. (x : Effect) → Contains set.keys x ↔ (x ≡ effect)) }
{
    let mut set = IndexSet::new(alloc);
    put_effect(&mut set, effect)?;
    Ok(set)
}

/// What an element may do, where the table has what fragments may do. It is linear in the element and in
/// what its parts may do.
#[cycle(elements)]
pub(crate) fn effects_of(
    alloc: Global,
    source: &Source,
    table: &[IndexSet<Effect>],
    element: &Element,
) -> Result<IndexSet<Effect>, NoMemory>
    requires numbers { AreNumbersOf source.now.grammar.now source.now.numbers.now }
    requires nodes { AreNodeRules source.now.grammar.now source.now.nodes.now }
    requires sized { length table.now ≡ length source.now.grammar.now.rules }
    ensures { IfOk result (λ set. (x : Effect) → Contains set.keys x ↔ Does source.now.grammar.now (InTable table.now) element.now x) }
{
    match element {
        Element::Keyword(..) => alone(alloc, Effect::Nothing),
        Element::Call(name, _) => effects_of_call(alloc, source, table, name),
        Element::Assign(..) => alone(alloc, Effect::Fills),
        Element::Act(action) => alone(alloc, Effect::Acts(source.number_of(&action.type_name))),
        Element::Group(parts, _) => effects_of_row(alloc, source, table, parts.as_slice()),
        Element::Choice(parts, _) => effects_of_any(alloc, source, table, parts.as_slice()),
        Element::Maybe(part, _) => effects_of_turns(alloc, source, table, part.get()),
        Element::Many(part, _) => effects_of_turns(alloc, source, table, part.get()),
        Element::Some1(part, _) => effects_of(alloc, source, table, part.get()),
    }
}

/// What any number of turns of a loop over the element may do.
#[cycle(elements)]
pub(crate) fn effects_of_turns(
    alloc: Global,
    source: &Source,
    table: &[IndexSet<Effect>],
    element: &Element,
) -> Result<IndexSet<Effect>, NoMemory>
    requires numbers { AreNumbersOf source.now.grammar.now source.now.numbers.now }
    requires nodes { AreNodeRules source.now.grammar.now source.now.nodes.now }
    requires sized { length table.now ≡ length source.now.grammar.now.rules }
    ensures { IfOk result (λ set. (x : Effect) → Contains set.keys x ↔ DoesTurns source.now.grammar.now (InTable table.now) element.now x) }
{
    let mut set = effects_of(alloc, source, table, element)?;
    put_effect(&mut set, Effect::Nothing)?;
    Ok(set)
}

/// What a call may do.
fn effects_of_call(
    alloc: Global,
    source: &Source,
    table: &[IndexSet<Effect>],
    name: &Name,
) -> Result<IndexSet<Effect>, NoMemory>
    requires numbers { AreNumbersOf source.now.grammar.now source.now.numbers.now }
    requires nodes { AreNodeRules source.now.grammar.now source.now.nodes.now }
    requires sized { length table.now ≡ length source.now.grammar.now.rules }
    ensures { IfOk result (λ set. CallDoes source.now.grammar.now (InTable table.now) name.now set.keys) }
{
    match source.callee(name) {
        Callee::Fragment(number) => copied(alloc, table[number].as_slice()),
        Callee::Step(effect) => alone(alloc, effect),
    }
}

/// What a row may do.
#[cycle(elements)]
fn effects_of_row(
    alloc: Global,
    source: &Source,
    table: &[IndexSet<Effect>],
    parts: &[Element],
) -> Result<IndexSet<Effect>, NoMemory>
    requires numbers { AreNumbersOf source.now.grammar.now source.now.numbers.now }
    requires nodes { AreNodeRules source.now.grammar.now source.now.nodes.now }
    requires sized { length table.now ≡ length source.now.grammar.now.rules }
    ensures { IfOk result (λ set. (x : Effect) → Contains set.keys x ↔ DoesFirst source.now.grammar.now (InTable table.now) parts.now (length parts.now) x) }
{
    let mut set = alone(alloc, Effect::Nothing)?;
    for part in parts {
        let more = effects_of(alloc, source, table, part)?;
        set = joined_effects(alloc, set.as_slice(), more.as_slice())?;
    }
    Ok(set)
}

/// What some one of the parts may do.
#[cycle(elements)]
fn effects_of_any(
    alloc: Global,
    source: &Source,
    table: &[IndexSet<Effect>],
    parts: &[Element],
) -> Result<IndexSet<Effect>, NoMemory>
    requires numbers { AreNumbersOf source.now.grammar.now source.now.numbers.now }
    requires nodes { AreNodeRules source.now.grammar.now source.now.nodes.now }
    requires sized { length table.now ≡ length source.now.grammar.now.rules }
    ensures { IfOk result (λ set. AddsFrom (Does source.now.grammar.now (InTable table.now)) [] parts.now set.keys) }
{
    let mut set = IndexSet::new(alloc);
    for part in parts {
        let more = effects_of(alloc, source, table, part)?;
        put_all(&mut set, more.as_slice())?;
    }
    Ok(set)
}
