// The calls and the ranges of a terminal's body.
ghost use Rattle.std.specs.Prelude.{◌≡◌, [], ◌∷◌, ◌++◌, OnOk, IfOk, map};
ghost use Rattle.std.specs.List.{flat_map};
ghost use Rattle.lw_grammar.specs.Written.{term_calls, term_ranges};
ghost use Rattle.lw_numbers.specs.Parts.{term_call_of, term_range_of};

use lw_base::{Name, NoMemory, Span};
use lw_grammar::TermElement;
use std::alloc::Global;

/// A range of characters that a terminal reads, lent from the grammar.
#[derive(Clone, Copy, Drop)]
pub struct TermRange<'g> {
    pub first: &'g Name,
    pub last: &'g Name,
    pub span: Span,
}

/// The calls of a terminal's body, each with its place, in the order of the text, in linear time.
pub fn term_calls(alloc: Global, element: &TermElement) -> Result<Vec<(&Name, Span)>, NoMemory>
    ensures { IfOk result (λ found. map term_call_of found.items ≡ term_calls element.now) }
{
    let mut found = Vec::new(alloc);
    put_calls(&mut found, element)?;
    Ok(found)
}

/// Puts one more behind the others.
fn put_call<'g>(
    found: &mut Vec<(&'g Name, Span)>,
    name: &'g Name,
    span: Span,
) -> Result<(), NoMemory>
    ensures { OnOk result (map term_call_of found.new.items ≡ map term_call_of found.old.items ++ (name.now, span) ∷ []) }
{
    found.push((name, span))?;
    Ok(())
}

#[cycle(calls)]
#[tactic(auto, using(crate::proofs::Equations::calls_of_forms))]
fn put_calls<'g>(
    found: &mut Vec<(&'g Name, Span)>,
    element: &'g TermElement,
) -> Result<(), NoMemory>
    ensures { OnOk result (map term_call_of found.new.items ≡ map term_call_of found.old.items ++ term_calls element.now) }
{
    match element {
        TermElement::Literal(..) | TermElement::Range(..) | TermElement::Pattern(..) => Ok(()),
        TermElement::Call(name, span) => put_call(found, name, *span),
        TermElement::Group(parts) | TermElement::Choice(parts) => {
            put_all_calls(found, parts.as_slice())
        }
        TermElement::Maybe(part) | TermElement::Many(part) | TermElement::Some1(part) => {
            put_calls(found, part.get())
        }
    }
}

#[cycle(calls)]
fn put_all_calls<'g>(
    found: &mut Vec<(&'g Name, Span)>,
    elements: &'g [TermElement],
) -> Result<(), NoMemory>
    ensures { OnOk result (map term_call_of found.new.items ≡ map term_call_of found.old.items ++ flat_map term_calls elements.now) }
{
    for element in elements {
        put_calls(found, element)?;
    }
    Ok(())
}

/// The ranges of a terminal's body, in the order of the text, in linear time.
pub fn term_ranges(alloc: Global, element: &TermElement) -> Result<Vec<TermRange<'_>>, NoMemory>
    ensures { IfOk result (λ found. map term_range_of found.items ≡ term_ranges element.now) }
{
    let mut found = Vec::new(alloc);
    put_ranges(&mut found, element)?;
    Ok(found)
}

/// Puts one more behind the others.
fn put_range<'g>(found: &mut Vec<TermRange<'g>>, range: TermRange<'g>) -> Result<(), NoMemory>
    ensures { OnOk result (map term_range_of found.new.items ≡ map term_range_of found.old.items ++ term_range_of range.entry ∷ []) }
{
    found.push(range)?;
    Ok(())
}

#[cycle(ranges)]
#[tactic(auto, using(crate::proofs::Equations::ranges_of_forms))]
fn put_ranges<'g>(found: &mut Vec<TermRange<'g>>, element: &'g TermElement) -> Result<(), NoMemory>
    ensures { OnOk result (map term_range_of found.new.items ≡ map term_range_of found.old.items ++ term_ranges element.now) }
{
    match element {
        TermElement::Literal(..) | TermElement::Pattern(..) | TermElement::Call(..) => Ok(()),
        TermElement::Range(first, last, span) => put_range(
            found,
            TermRange {
                first,
                last,
                span: *span,
            },
        ),
        TermElement::Group(parts) | TermElement::Choice(parts) => {
            put_all_ranges(found, parts.as_slice())
        }
        TermElement::Maybe(part) | TermElement::Many(part) | TermElement::Some1(part) => {
            put_ranges(found, part.get())
        }
    }
}

#[cycle(ranges)]
fn put_all_ranges<'g>(
    found: &mut Vec<TermRange<'g>>,
    elements: &'g [TermElement],
) -> Result<(), NoMemory>
    ensures { OnOk result (map term_range_of found.new.items ≡ map term_range_of found.old.items ++ flat_map term_ranges elements.now) }
{
    for element in elements {
        put_ranges(found, element)?;
    }
    Ok(())
}
