// The leaves of an element as they are come to.
ghost use Rattle.std.specs.Prelude.{◌≡◌, ◌↔◌, ◌++◌, ◌∷◌, [], ℕ, OnOk, Contains, length};
ghost use Rattle.std.specs.List.{flat_map};
ghost use Rattle.lw_base.specs.declared.token.Span.{Span};
ghost use Rattle.lw_grammar.specs.Leaves.{Call, leaves};
ghost use Rattle.lw_numbers.specs.Tables.{AreNumbersOf};
ghost use Rattle.lw_numbers.specs.Kinship.{AreNodeRules};
ghost use Rattle.lw_flow.specs.Rows.{InTable};
ghost use Rattle.lw_flow.specs.Visits.{IsPlaceOf, Pushed, PutsVisits, AtLeaf, AgainAt, InRow, InSome};

use crate::callee::{Callee, Source};
use crate::doing::{effects_of, effects_of_turns};
use crate::effect::{Effect, Mark};
use crate::sets::{copied, moved_marks};
use indexmap::IndexSet;
use lw_base::{Name, NoMemory};
use lw_grammar::Element;
use std::alloc::Global;

/// A leaf as it is come to.
#[derive(Drop)]
pub struct Visit {
    /// The number of the fragment that is called there.
    pub enters: Option<usize>,
    /// What is known of the ways to it.
    pub marks: IndexSet<Mark>,
}

/// The number of the fragment that a call of this name puts in.
fn entered(source: &Source, name: &Name) -> Option<usize>
    requires numbers { AreNumbersOf source.now.grammar.now source.now.numbers.now }
    requires nodes { AreNodeRules source.now.grammar.now source.now.nodes.now }
    ensures { (s : Span) → IsPlaceOf source.now.grammar.now (Call name.now s) result }
{
    match source.callee(name) {
        Callee::Fragment(number) => Some(number),
        Callee::Step(..) => None,
    }
}

/// Puts a visit with these marks behind the others.
fn put_visit(
    alloc: Global,
    visits: &mut Vec<Visit>,
    enters: Option<usize>,
    marks: &[Mark],
) -> Result<(), NoMemory>
    ensures { OnOk result (Pushed enters marks.now visits.old.items visits.new.items) }
{
    let marks = copied(alloc, marks)?;
    visits.push(Visit { enters, marks })?;
    Ok(())
}

/// Puts the leaves of the element behind the visits, where these marks come to it.
#[cycle(elements)]
pub(crate) fn walk(
    alloc: Global,
    source: &Source,
    table: &[IndexSet<Effect>],
    start: &[Mark],
    element: &Element,
    visits: &mut Vec<Visit>,
) -> Result<(), NoMemory>
    requires numbers { AreNumbersOf source.now.grammar.now source.now.numbers.now }
    requires nodes { AreNodeRules source.now.grammar.now source.now.nodes.now }
    requires sized { length table.now ≡ length source.now.grammar.now.rules }
    ensures { OnOk result (PutsVisits source.now.grammar.now (AtLeaf source.now.grammar.now (InTable table.now) start.now element.now) (leaves element.now) visits.old.items visits.new.items) }
{
    match element {
        Element::Keyword(..) => put_visit(alloc, visits, None, &[]),
        Element::Call(name, _) => put_visit(alloc, visits, entered(source, name), start),
        Element::Assign(..) => put_visit(alloc, visits, None, start),
        Element::Act(..) => put_visit(alloc, visits, None, start),
        Element::Group(parts, _) => {
            walk_row(alloc, source, table, start, parts.as_slice(), visits)
        }
        Element::Choice(parts, _) => {
            walk_each(alloc, source, table, start, parts.as_slice(), visits)
        }
        Element::Maybe(part, _) => walk(alloc, source, table, start, part.get(), visits),
        Element::Many(part, _) => walk_again(alloc, source, table, start, part.get(), visits),
        Element::Some1(part, _) => walk_again(alloc, source, table, start, part.get(), visits),
    }
}

/// The same of a part that comes behind itself.
#[cycle(elements)]
fn walk_again(
    alloc: Global,
    source: &Source,
    table: &[IndexSet<Effect>],
    start: &[Mark],
    part: &Element,
    visits: &mut Vec<Visit>,
) -> Result<(), NoMemory>
    requires numbers { AreNumbersOf source.now.grammar.now source.now.numbers.now }
    requires nodes { AreNodeRules source.now.grammar.now source.now.nodes.now }
    requires sized { length table.now ≡ length source.now.grammar.now.rules }
    ensures { OnOk result (PutsVisits source.now.grammar.now (AgainAt source.now.grammar.now (InTable table.now) start.now part.now) (leaves part.now) visits.old.items visits.new.items) }
{
    let turns = effects_of_turns(alloc, source, table, part)?;
    let marks = moved_marks(alloc, start, turns.as_slice())?;
    walk(alloc, source, table, marks.as_slice(), part, visits)
}

/// The same of the parts of a row.
#[cycle(elements)]
fn walk_row(
    alloc: Global,
    source: &Source,
    table: &[IndexSet<Effect>],
    start: &[Mark],
    parts: &[Element],
    visits: &mut Vec<Visit>,
) -> Result<(), NoMemory>
    requires numbers { AreNumbersOf source.now.grammar.now source.now.numbers.now }
    requires nodes { AreNodeRules source.now.grammar.now source.now.nodes.now }
    requires sized { length table.now ≡ length source.now.grammar.now.rules }
    ensures { OnOk result (PutsVisits source.now.grammar.now (InRow source.now.grammar.now (InTable table.now) start.now parts.now (length parts.now)) (flat_map leaves parts.now) visits.old.items visits.new.items) }
{
    let mut marks = copied(alloc, start)?;
    for part in parts {
        walk(alloc, source, table, marks.as_slice(), part, visits)?;
        let more = effects_of(alloc, source, table, part)?;
        marks = moved_marks(alloc, marks.as_slice(), more.as_slice())?;
    }
    Ok(())
}

/// The same of alternatives.
#[cycle(elements)]
fn walk_each(
    alloc: Global,
    source: &Source,
    table: &[IndexSet<Effect>],
    start: &[Mark],
    parts: &[Element],
    visits: &mut Vec<Visit>,
) -> Result<(), NoMemory>
    requires numbers { AreNumbersOf source.now.grammar.now source.now.numbers.now }
    requires nodes { AreNodeRules source.now.grammar.now source.now.nodes.now }
    requires sized { length table.now ≡ length source.now.grammar.now.rules }
    ensures { OnOk result (PutsVisits source.now.grammar.now (InSome source.now.grammar.now (InTable table.now) start.now parts.now) (flat_map leaves parts.now) visits.old.items visits.new.items) }
{
    for part in parts {
        walk(alloc, source, table, start, part, visits)?;
    }
    Ok(())
}
