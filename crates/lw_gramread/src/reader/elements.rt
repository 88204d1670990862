// The bodies of parser rules.
ghost use Rattle.std.specs.Prelude.{◌≡◌, ◌+◌, ◌<◌, ◌≤◌, [], ◌∷◌, length, map, IfOk, OnOk};
ghost use Rattle.lw_gramread.specs.Steps.{ReadsAs};
ghost use Rattle.lw_gramread.specs.Spans.{covering, choice_of, group_of, span_of};
ghost use Rattle.lw_gramread.specs.ValueSteps.{values_inside};
ghost use Rattle.lw_gramread.specs.ElementSteps.{rows, row, elements, element_in, part_in, choice_inside, begins_element, plain_part, word_part, assigned, marked, marked_maybe, marked_many, marked_some, action, put_of, put_operator};

use super::left::{Left, Spot, Stop};
use super::values::{across, value};
use crate::lexeme::Reserved;
use lw_base::{Boxed, Items, Name, Span};
use lw_gramlex::Symbol;
use lw_grammar::{Action, Element, Op};
use std::alloc::Global;

/// Seq ('|' Seq)*, each by itself.
#[cycle(choices)]
#[tactic(auto, unfolding(crate::specs::ElementSteps::rows))]
pub(crate) fn rows(alloc: Global, left: &mut Left<'_>, depth: usize) -> Result<Items<Element>, Stop>
    ensures reads { ReadsAs (rows (values_inside depth) (choice_inside depth) left.old) result left.new }
    ensures shorter { length left.new ≤ length left.old }
{
    let mut rows = Items::new(alloc);
    let first = row(alloc, left, depth)?;
    rows.push(first)?;
    'more: while left.takes(Symbol::Bar) {
        let next = row(alloc, left, depth)?;
        rows.push(next)?;
    }
    Ok(rows)
}

// Element+
#[cycle(choices)]
#[tactic(auto, unfolding(crate::specs::ElementSteps::row))]
fn row(alloc: Global, left: &mut Left<'_>, depth: usize) -> Result<Element, Stop>
    ensures reads { ReadsAs (row (values_inside depth) (choice_inside depth) left.old) result left.new }
    ensures shorter { length left.new ≤ length left.old }
{
    let elements = elements(alloc, left, depth)?;
    Ok(group_of(elements))
}

#[cycle(choices)]
#[tactic(auto, unfolding(crate::specs::ElementSteps::elements))]
fn elements(alloc: Global, left: &mut Left<'_>, depth: usize) -> Result<Items<Element>, Stop>
    ensures reads { ReadsAs (elements (values_inside depth) (choice_inside depth) left.old) result left.new }
    ensures shorter { length left.new ≤ length left.old }
{
    let mut elements = Items::new(alloc);
    let first = element(alloc, left, depth)?;
    elements.push(first)?;
    'more: while begins_element(left) {
        let next = element(alloc, left, depth)?;
        elements.push(next)?;
    }
    Ok(elements)
}

// (Assign | String | Word | '(' Choice ')') Card? | Action
#[cycle(choices)]
#[tactic(auto, unfolding(crate::specs::ElementSteps::element_in))]
fn element(alloc: Global, left: &mut Left<'_>, depth: usize) -> Result<Element, Stop>
    ensures reads { ReadsAs (element_in (values_inside depth) (choice_inside depth) left.old) result left.new }
    ensures shorter { length left.new ≤ length left.old }
    ensures taken { OnOk result (length left.new < length left.old) }
{
    if left.sees(Symbol::OpenBrace) {
        return Ok(Element::Act(action(alloc, left)?));
    }
    let (part, place) = part(alloc, left, depth)?;
    marked(alloc, left, part, place)
}

// Assign | String | Word | '(' Choice ')', and where it stands with its parentheses.
#[cycle(choices)]
#[tactic(auto, unfolding(crate::specs::ElementSteps::part_in))]
fn part(alloc: Global, left: &mut Left<'_>, depth: usize) -> Result<(Element, Span), Stop>
    ensures reads { ReadsAs (part_in (values_inside depth) (choice_inside depth) left.old) result left.new }
    ensures shorter { length left.new ≤ length left.old }
    ensures taken { OnOk result (length left.new < length left.old) }
{
    if left.sees(Symbol::OpenParenthesis) {
        return choice_inside(alloc, left, depth);
    }
    plain_part(alloc, left, depth)
}

// '(' Choice ')', and where it stands with its parentheses.
#[cycle(choices)]
#[tactic(auto, unfolding(crate::specs::ElementSteps::choice_inside, crate::specs::ElementSteps::choice))]
fn choice_inside(alloc: Global, left: &mut Left<'_>, depth: usize) -> Result<(Element, Span), Stop>
    ensures reads { ReadsAs (choice_inside depth left.old) result left.new }
    ensures shorter { length left.new ≤ length left.old }
    ensures taken { OnOk result (length left.new < length left.old) }
{
    if depth == 0 {
        return Err(Stop::TooDeep);
    }
    let open = left.symbol(Symbol::OpenParenthesis, Spot::Rule)?;
    let rows = rows(alloc, left, depth - 1)?;
    let close = left.symbol(Symbol::CloseParenthesis, Spot::Rule)?;
    Ok((choice_of(rows), across(open, close)))
}

// Whether an element begins with the next token.
fn begins_element(left: &Left<'_>) -> bool
    ensures { result ≡ begins_element left.now }
{
    left.sees_word()
        || left.sees_text()
        || left.sees(Symbol::OpenParenthesis)
        || left.sees(Symbol::OpenBrace)
}

// Assign | String | Word, and where it stands.
#[tactic(auto, unfolding(crate::specs::ElementSteps::plain_part))]
fn plain_part(alloc: Global, left: &mut Left<'_>, depth: usize) -> Result<(Element, Span), Stop>
    ensures reads { ReadsAs (plain_part (values_inside depth) left.old) result left.new }
    ensures shorter { length left.new ≤ length left.old }
    ensures taken { OnOk result (length left.new < length left.old) }
{
    if left.sees_text() {
        let (value, span) = left.text(alloc, Spot::Rule)?;
        return Ok((Element::Keyword(value, span), span));
    }
    word_part(alloc, left, depth)
}

// Assign | Word: an assignment where an operator follows the word.
#[tactic(auto, unfolding(crate::specs::ElementSteps::word_part))]
fn word_part(alloc: Global, left: &mut Left<'_>, depth: usize) -> Result<(Element, Span), Stop>
    ensures reads { ReadsAs (word_part (values_inside depth) left.old) result left.new }
    ensures shorter { length left.new ≤ length left.old }
    ensures taken { OnOk result (length left.new < length left.old) }
{
    let is_name = left.sees_name();
    let (name, span) = left.feature(alloc, Spot::Rule)?;
    if let Some(op) = left.next_operator() {
        left.skip();
        return assigned(alloc, left, depth, name, span, op);
    }
    if !is_name {
        return Err(Stop::Unexpected(Spot::Rule));
    }
    Ok((Element::Call(name, span), span))
}

// An assignment, behind its operator, and where it stands.
#[tactic(auto, unfolding(crate::specs::ElementSteps::assigned))]
fn assigned(
    alloc: Global,
    left: &mut Left<'_>,
    depth: usize,
    property: Name,
    span: Span,
    op: Op,
) -> Result<(Element, Span), Stop>
    ensures reads { ReadsAs (assigned (values_inside depth) property span op left.old) result left.new }
    ensures shorter { length left.new ≤ length left.old }
{
    let (value, place) = value(alloc, left, depth)?;
    let whole = across(span, place);
    Ok((Element::Assign(property, op, value, whole), whole))
}

// Card?, behind the part that it marks.
#[tactic(auto, unfolding(crate::specs::ElementSteps::marked))]
fn marked(alloc: Global, left: &mut Left<'_>, part: Element, place: Span) -> Result<Element, Stop>
    ensures reads { ReadsAs (marked part place left.old) result left.new }
    ensures shorter { length left.new ≤ length left.old }
{
    if left.sees(Symbol::Question) {
        return maybe(alloc, left, part, place);
    }
    if left.sees(Symbol::Star) {
        return many(alloc, left, part, place);
    }
    if left.sees(Symbol::Plus) {
        return some(alloc, left, part, place);
    }
    Ok(part)
}

// '?', behind the part that it marks.
fn maybe(alloc: Global, left: &mut Left<'_>, part: Element, place: Span) -> Result<Element, Stop>
    ensures reads { ReadsAs (marked_maybe part place left.old) result left.new }
    ensures shorter { length left.new ≤ length left.old }
{
    let part = Boxed::new(alloc, part)?;
    let mark = left.symbol(Symbol::Question, Spot::Rule)?;
    Ok(Element::Maybe(part, across(place, mark)))
}

// '*', behind the part that it marks.
fn many(alloc: Global, left: &mut Left<'_>, part: Element, place: Span) -> Result<Element, Stop>
    ensures reads { ReadsAs (marked_many part place left.old) result left.new }
    ensures shorter { length left.new ≤ length left.old }
{
    let part = Boxed::new(alloc, part)?;
    let mark = left.symbol(Symbol::Star, Spot::Rule)?;
    Ok(Element::Many(part, across(place, mark)))
}

// '+', behind the part that it marks.
fn some(alloc: Global, left: &mut Left<'_>, part: Element, place: Span) -> Result<Element, Stop>
    ensures reads { ReadsAs (marked_some part place left.old) result left.new }
    ensures shorter { length left.new ≤ length left.old }
{
    let part = Boxed::new(alloc, part)?;
    let mark = left.symbol(Symbol::Plus, Spot::Rule)?;
    Ok(Element::Some1(part, across(place, mark)))
}

// '{' ('infer' Word | Word) ('.' Feature ('=' | '+=') 'current')? '}'
#[tactic(auto, unfolding(crate::specs::ElementSteps::action, crate::specs::ElementSteps::action_behind))]
fn action(alloc: Global, left: &mut Left<'_>) -> Result<Action, Stop>
    ensures reads { ReadsAs (action left.old) result left.new }
    ensures shorter { length left.new ≤ length left.old }
    ensures taken { OnOk result (length left.new < length left.old) }
{
    let open = left.symbol(Symbol::OpenBrace, Spot::Rule)?;
    let infers = left.takes_reserved(Reserved::Infer);
    let (type_name, _) = left.name(alloc, Spot::Rule)?;
    let put = put_of(alloc, left)?;
    let close = left.symbol(Symbol::CloseBrace, Spot::Rule)?;
    Ok(Action {
        infers,
        type_name,
        put,
        span: across(open, close),
    })
}

// ('.' Feature ('=' | '+=') 'current')?
#[tactic(auto, unfolding(crate::specs::ElementSteps::put_of))]
fn put_of(alloc: Global, left: &mut Left<'_>) -> Result<Option<(Name, bool)>, Stop>
    ensures reads { ReadsAs (put_of left.old) result left.new }
    ensures shorter { length left.new ≤ length left.old }
{
    if !left.takes(Symbol::Dot) {
        return Ok(None);
    }
    let (property, _) = left.feature(alloc, Spot::Rule)?;
    let is_list = put_operator(left)?;
    left.reserved(Reserved::Current, Spot::Rule)?;
    Ok(Some((property, is_list)))
}

// '=' | '+=': whether a list takes the node.
#[tactic(auto, unfolding(crate::specs::ElementSteps::put_operator))]
fn put_operator(left: &mut Left<'_>) -> Result<bool, Stop>
    ensures reads { ReadsAs (put_operator left.old) result left.new }
    ensures shorter { length left.new ≤ length left.old }
{
    if left.takes(Symbol::PlusEquals) {
        return Ok(true);
    }
    left.symbol(Symbol::Equals, Spot::Rule)?;
    Ok(false)
}

/// Alternatives as one element: the element itself where it is one.
#[tactic(auto, unfolding(crate::specs::Spans::choice_of))]
pub(crate) fn choice_of(mut rows: Items<Element>) -> Element
    ensures { result ≡ choice_of rows }
{
    if rows.len() == 1 {
        return rows.remove(0);
    }
    let span = span_of_all(rows.as_slice());
    Element::Choice(rows, span)
}

// A row as one element: the element itself where it is one.
#[tactic(auto, unfolding(crate::specs::Spans::group_of))]
fn group_of(mut elements: Items<Element>) -> Element
    ensures { result ≡ group_of elements }
{
    if elements.len() == 1 {
        return elements.remove(0);
    }
    let span = span_of_all(elements.as_slice());
    Element::Group(elements, span)
}

// From the start of the first to the end of the last.
fn span_of_all(elements: &[Element]) -> Span
    ensures { result ≡ covering (map span_of elements.now) }
{
    match elements {
        [] => Span { start: 0, end: 0 },
        [only] => span_of(only),
        [first, .., last] => across(span_of(first), span_of(last)),
    }
}

#[tactic(auto, unfolding(crate::specs::Spans::span_of))]
fn span_of(element: &Element) -> Span
    ensures { result ≡ span_of element.now }
{
    match element {
        Element::Keyword(_, span)
        | Element::Call(_, span)
        | Element::Assign(_, _, _, span)
        | Element::Group(_, span)
        | Element::Choice(_, span)
        | Element::Maybe(_, span)
        | Element::Many(_, span)
        | Element::Some1(_, span) => *span,
        Element::Act(action) => action.span,
    }
}
