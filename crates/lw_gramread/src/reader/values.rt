// What assignments read.
ghost use Rattle.std.specs.Prelude.{◌≡◌, ◌+◌, ◌<◌, ◌≤◌, [], ◌∷◌, length, map, IfOk, OnOk};
ghost use Rattle.lw_gramread.specs.Steps.{ReadsAs};
ghost use Rattle.lw_gramread.specs.Spans.{across, covering, value_among, span_of_value};
ghost use Rattle.lw_gramread.specs.ValueSteps.{value_in, values_inside, values, plain_value, cross_reference, rule_of_cross};

use super::left::{Left, Spot, Stop};
use lw_base::{Items, Name, Span};
use lw_gramlex::Symbol;
use lw_grammar::Value0;
use std::alloc::Global;

// String | Word | Cross | '(' Value ('|' Value)* ')', and where it stands with its parentheses.
#[cycle(values)]
#[tactic(auto, unfolding(crate::specs::ValueSteps::value_in))]
pub(crate) fn value(
    alloc: Global,
    left: &mut Left<'_>,
    depth: usize,
) -> Result<(Value0, Span), Stop>
    ensures reads { ReadsAs (value_in (values_inside depth) left.old) result left.new }
    ensures shorter { length left.new ≤ length left.old }
{
    if left.sees(Symbol::OpenParenthesis) {
        return values_inside(alloc, left, depth);
    }
    plain_value(alloc, left)
}

#[cycle(values)]
#[tactic(auto, unfolding(crate::specs::ValueSteps::values_inside))]
fn values_inside(alloc: Global, left: &mut Left<'_>, depth: usize) -> Result<(Value0, Span), Stop>
    ensures reads { ReadsAs (values_inside depth left.old) result left.new }
    ensures shorter { length left.new ≤ length left.old }
{
    if depth == 0 {
        return Err(Stop::TooDeep);
    }
    let open = left.symbol(Symbol::OpenParenthesis, Spot::Rule)?;
    let values = values(alloc, left, depth - 1)?;
    let close = left.symbol(Symbol::CloseParenthesis, Spot::Rule)?;
    Ok((value_of(values), across(open, close)))
}

// Value ('|' Value)*
#[cycle(values)]
#[tactic(auto, unfolding(crate::specs::ValueSteps::values))]
fn values(alloc: Global, left: &mut Left<'_>, depth: usize) -> Result<Items<Value0>, Stop>
    ensures reads { ReadsAs (values (values_inside depth) left.old) result left.new }
    ensures shorter { length left.new ≤ length left.old }
{
    let mut values = Items::new(alloc);
    let (first, _) = value(alloc, left, depth)?;
    values.push(first)?;
    'more: while left.takes(Symbol::Bar) {
        let (next, _) = value(alloc, left, depth)?;
        values.push(next)?;
    }
    Ok(values)
}

// String | Word | Cross
#[tactic(auto, unfolding(crate::specs::ValueSteps::plain_value))]
fn plain_value(alloc: Global, left: &mut Left<'_>) -> Result<(Value0, Span), Stop>
    ensures reads { ReadsAs (plain_value left.old) result left.new }
    ensures shorter { length left.new ≤ length left.old }
{
    if left.sees(Symbol::OpenBracket) {
        return cross_reference(alloc, left);
    }
    if left.sees_text() {
        let (value, span) = left.text(alloc, Spot::Rule)?;
        return Ok((Value0::Keyword(value, span), span));
    }
    let (name, span) = left.name(alloc, Spot::Rule)?;
    Ok((Value0::Call(name, span), span))
}

// '[' Word ((':' | '|') Word)? ']'
#[tactic(auto, unfolding(crate::specs::ValueSteps::cross_reference))]
fn cross_reference(alloc: Global, left: &mut Left<'_>) -> Result<(Value0, Span), Stop>
    ensures reads { ReadsAs (cross_reference left.old) result left.new }
    ensures shorter { length left.new ≤ length left.old }
{
    let open = left.symbol(Symbol::OpenBracket, Spot::Rule)?;
    let (wanted, _) = left.name(alloc, Spot::Rule)?;
    let rule = rule_of_cross(alloc, left)?;
    let close = left.symbol(Symbol::CloseBracket, Spot::Rule)?;
    let span = across(open, close);
    Ok((Value0::Cross(wanted, rule, span), span))
}

// ((':' | '|') Word)?
#[tactic(auto, unfolding(crate::specs::ValueSteps::rule_of_cross))]
fn rule_of_cross(alloc: Global, left: &mut Left<'_>) -> Result<Option<Name>, Stop>
    ensures reads { ReadsAs (rule_of_cross left.old) result left.new }
    ensures shorter { length left.new ≤ length left.old }
{
    if left.takes(Symbol::Colon) || left.takes(Symbol::Bar) {
        let (rule, _) = left.name(alloc, Spot::Rule)?;
        return Ok(Some(rule));
    }
    Ok(None)
}

// Alternatives as one value: the value itself where it is one.
#[tactic(auto, unfolding(crate::specs::Spans::value_among))]
fn value_of(mut values: Items<Value0>) -> Value0
    ensures { result ≡ value_among values }
{
    if values.len() == 1 {
        return values.remove(0);
    }
    let span = span_of_values(values.as_slice());
    Value0::Choice(values, span)
}

// From the start of the first to the end of the last.
fn span_of_values(values: &[Value0]) -> Span
    ensures { result ≡ covering (map span_of_value values.now) }
{
    match values {
        [] => Span { start: 0, end: 0 },
        [only] => span_of_value(only),
        [first, .., last] => across(span_of_value(first), span_of_value(last)),
    }
}

#[tactic(auto, unfolding(crate::specs::Spans::span_of_value))]
fn span_of_value(value: &Value0) -> Span
    ensures { result ≡ span_of_value value.now }
{
    match value {
        Value0::Keyword(_, span)
        | Value0::Call(_, span)
        | Value0::Cross(_, _, span)
        | Value0::Choice(_, span) => *span,
    }
}

/// From the start of the first place to the end of the second.
pub(crate) fn across(first: Span, last: Span) -> Span
    ensures { result ≡ across first last }
{
    Span {
        start: first.start,
        end: last.end,
    }
}
