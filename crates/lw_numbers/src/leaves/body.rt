// The leaves of a rule's body.
ghost use Rattle.std.specs.Prelude.{◌≡◌, [], ◌∷◌, ◌++◌, OnOk, IfOk, map};
ghost use Rattle.std.specs.List.{flat_map};
ghost use Rattle.lw_grammar.specs.Leaves.{leaves};
ghost use Rattle.lw_numbers.specs.Parts.{leaf_of};

use lw_base::{Name, NoMemory, Span};
use lw_grammar::{Action, Element, Op, Value0};
use std::alloc::Global;

/// A leaf of a rule's body, lent from the grammar.
#[derive(Clone, Copy, Drop)]
pub enum BodyLeaf<'g> {
    Keyword(&'g Name, Span),
    /// A call whose value goes into no property.
    Call(&'g Name, Span),
    /// A property, how the value goes in, and what is read.
    Assign(&'g Name, Op, &'g Value0, Span),
    Act(&'g Action),
}

/// The leaves of a body, in the order of the text, in linear time.
pub fn body_leaves(alloc: Global, body: &Element) -> Result<Vec<BodyLeaf<'_>>, NoMemory>
    ensures { IfOk result (λ found. map leaf_of found.items ≡ leaves body.now) }
{
    let mut found = Vec::new(alloc);
    put_element(&mut found, body)?;
    Ok(found)
}

/// Puts one more behind the others.
fn put<'g>(found: &mut Vec<BodyLeaf<'g>>, leaf: BodyLeaf<'g>) -> Result<(), NoMemory>
    ensures { OnOk result (map leaf_of found.new.items ≡ map leaf_of found.old.items ++ leaf_of leaf.entry ∷ []) }
{
    found.push(leaf)?;
    Ok(())
}

#[cycle(elements)]
#[tactic(auto, using(crate::proofs::Equations::leaves_of_forms))]
fn put_element<'g>(found: &mut Vec<BodyLeaf<'g>>, element: &'g Element) -> Result<(), NoMemory>
    ensures { OnOk result (map leaf_of found.new.items ≡ map leaf_of found.old.items ++ leaves element.now) }
{
    match element {
        Element::Keyword(text, span) => put(found, BodyLeaf::Keyword(text, *span)),
        Element::Call(name, span) => put(found, BodyLeaf::Call(name, *span)),
        Element::Assign(property, op, value, span) => {
            put(found, BodyLeaf::Assign(property, *op, value, *span))
        }
        Element::Act(action) => put(found, BodyLeaf::Act(action)),
        Element::Group(parts, _) | Element::Choice(parts, _) => {
            put_elements(found, parts.as_slice())
        }
        Element::Maybe(part, _) | Element::Many(part, _) | Element::Some1(part, _) => {
            put_element(found, part.get())
        }
    }
}

#[cycle(elements)]
fn put_elements<'g>(found: &mut Vec<BodyLeaf<'g>>, elements: &'g [Element]) -> Result<(), NoMemory>
    ensures { OnOk result (map leaf_of found.new.items ≡ map leaf_of found.old.items ++ flat_map leaves elements.now) }
{
    for element in elements {
        put_element(found, element)?;
    }
    Ok(())
}
