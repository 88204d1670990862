// How large a grammar is. Every sum stops at 2^64 - 1.
ghost use Rattle.std.specs.Prelude.{ℕ, ◌≡◌, ◌+◌, ◌-◌, ◌^◌, length, min, sum_by};
ghost use Rattle.lw_grammar.specs.Size.{size, value_size, element_size, term_size};

use lw_grammar::{
    Attribute, Element, Grammar, Interface, Rule, TermElement, Terminal, UnionDef, Value0,
};

/// A rule, a terminal, an interface, a property of one, or a union.
trait HasSize {
    ghost measured: { Self → ℕ };

    fn size(&self) -> usize
        ensures { result ≡ min (measured self.now) (2 ^ 64 - 1) };
}

impl HasSize for Rule {
    ghost measured = { λ rule. 1 + element_size rule.body };

    fn size(&self) -> usize {
        element_size(&self.body).saturating_add(1)
    }
}

impl HasSize for Terminal {
    ghost measured = { λ terminal. 1 + term_size terminal.body };

    fn size(&self) -> usize {
        term_size(&self.body).saturating_add(1)
    }
}

impl HasSize for Interface {
    ghost measured = { λ interface. 1 + sum_by (λ attribute. 1 + length attribute.members) interface.attributes };

    fn size(&self) -> usize {
        total(self.attributes.as_slice()).saturating_add(1)
    }
}

impl HasSize for Attribute {
    ghost measured = { λ attribute. 1 + length attribute.members };

    fn size(&self) -> usize {
        self.members.len().saturating_add(1)
    }
}

impl HasSize for UnionDef {
    ghost measured = { λ union. 1 + length union.members };

    fn size(&self) -> usize {
        self.members.len().saturating_add(1)
    }
}

/// The size of a grammar, or 2^64 - 1 where it is larger. It is linear in the grammar.
pub(crate) fn size_of(g: &Grammar) -> usize
    ensures { result ≡ min (size g.now) (2 ^ 64 - 1) }
{
    g.imports
        .len()
        .saturating_add(total(g.rules.as_slice()))
        .saturating_add(total(g.terminals.as_slice()))
        .saturating_add(total(g.interfaces.as_slice()))
        .saturating_add(total(g.unions.as_slice()))
}

/// How large these are together.
fn total<T: HasSize>(parts: &[T]) -> usize
    ensures { result ≡ min (sum_by T.measured parts.now) (2 ^ 64 - 1) }
{
    let mut total: usize = 0;
    for part in parts {
        total = total.saturating_add(part.size());
    }
    total
}

/// The values at every depth of one.
#[cycle(values)]
#[tactic(auto, using(crate::proofs::Sizes::value_sizes))]
fn value_size(value: &Value0) -> usize
    ensures { result ≡ min (value_size value.now) (2 ^ 64 - 1) }
{
    match value {
        Value0::Keyword(..) | Value0::Call(..) | Value0::Cross(..) => 1,
        Value0::Choice(values, _) => values_size(values.as_slice()).saturating_add(1),
    }
}

#[cycle(values)]
fn values_size(values: &[Value0]) -> usize
    ensures { result ≡ min (sum_by value_size values.now) (2 ^ 64 - 1) }
{
    let mut total: usize = 0;
    for value in values {
        total = total.saturating_add(value_size(value));
    }
    total
}

/// The elements, values and actions at every depth of an element.
#[cycle(elements)]
#[tactic(auto, using(crate::proofs::Sizes::element_sizes))]
fn element_size(element: &Element) -> usize
    ensures { result ≡ min (element_size element.now) (2 ^ 64 - 1) }
{
    match element {
        Element::Keyword(..) | Element::Call(..) => 1,
        Element::Assign(_, _, value, _) => value_size(value).saturating_add(1),
        Element::Act(_) => 2,
        Element::Group(parts, _) | Element::Choice(parts, _) => {
            elements_size(parts.as_slice()).saturating_add(1)
        }
        Element::Maybe(part, _) | Element::Many(part, _) | Element::Some1(part, _) => {
            element_size(part.get()).saturating_add(1)
        }
    }
}

#[cycle(elements)]
fn elements_size(elements: &[Element]) -> usize
    ensures { result ≡ min (sum_by element_size elements.now) (2 ^ 64 - 1) }
{
    let mut total: usize = 0;
    for element in elements {
        total = total.saturating_add(element_size(element));
    }
    total
}

/// The elements at every depth of a terminal's.
#[cycle(terms)]
#[tactic(auto, using(crate::proofs::Sizes::term_sizes))]
fn term_size(term: &TermElement) -> usize
    ensures { result ≡ min (term_size term.now) (2 ^ 64 - 1) }
{
    match term {
        TermElement::Literal(..)
        | TermElement::Range(..)
        | TermElement::Pattern(..)
        | TermElement::Call(..) => 1,
        TermElement::Group(parts) | TermElement::Choice(parts) => {
            terms_size(parts.as_slice()).saturating_add(1)
        }
        TermElement::Maybe(part) | TermElement::Many(part) | TermElement::Some1(part) => {
            term_size(part.get()).saturating_add(1)
        }
    }
}

#[cycle(terms)]
fn terms_size(terms: &[TermElement]) -> usize
    ensures { result ≡ min (sum_by term_size terms.now) (2 ^ 64 - 1) }
{
    let mut total: usize = 0;
    for term in terms {
        total = total.saturating_add(term_size(term));
    }
    total
}
