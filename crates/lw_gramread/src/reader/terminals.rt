// Terminals.
ghost use Rattle.std.specs.Prelude.{◌≡◌, ◌+◌, ◌<◌, ◌≤◌, [], ◌∷◌, length, map, IfOk, OnOk};
ghost use Rattle.lw_gramread.specs.Steps.{ReadsAs};
ghost use Rattle.lw_gramread.specs.TypeSteps.{deepest};
ghost use Rattle.lw_gramread.specs.Spans.{term_choice_of, term_group_of};
ghost use Rattle.lw_gramread.specs.TerminalSteps.{terminal, terminal_result, term_rows, term_row, term_elements, term_element, term_part, terms_inside, begins_term, plain_term, literal_or_range, marked_term};

use super::left::{DEEPEST, Left, Spot, Stop};
use super::values::across;
use crate::lexeme::Reserved;
use lw_base::{Boxed, Items, Name, Span};
use lw_gramlex::Symbol;
use lw_grammar::{Primitive, TermElement, Terminal};
use std::alloc::Global;

/// ('fragment' Word | Word ('returns' Primitive)?) ':' TChoice ';', behind the word `terminal`.
#[tactic(auto, unfolding(crate::specs::TerminalSteps::terminal, crate::specs::TerminalSteps::terminal_behind, crate::specs::TerminalSteps::term_choice))]
pub(crate) fn terminal(
    alloc: Global,
    left: &mut Left<'_>,
    is_hidden: bool,
) -> Result<Terminal, Stop>
    ensures reads { ReadsAs (terminal deepest is_hidden left.old) result left.new }
    ensures shorter { length left.new ≤ length left.old }
{
    let is_fragment = left.takes_reserved(Reserved::Fragment);
    let (name, span) = left.name(alloc, Spot::Terminal)?;
    let gives = terminal_result(left, is_fragment)?;
    left.symbol(Symbol::Colon, Spot::Terminal)?;
    let rows = rows(alloc, left, DEEPEST)?;
    left.symbol(Symbol::Semicolon, Spot::Terminal)?;
    Ok(Terminal {
        name,
        file: 0,
        span,
        is_hidden,
        is_fragment,
        gives,
        body: choice_of(rows),
    })
}

// ('returns' Primitive)?, where the terminal is no fragment.
#[tactic(auto, unfolding(crate::specs::TerminalSteps::terminal_result))]
fn terminal_result(left: &mut Left<'_>, is_fragment: bool) -> Result<Primitive, Stop>
    ensures reads { ReadsAs (terminal_result is_fragment left.old) result left.new }
    ensures shorter { length left.new ≤ length left.old }
{
    if !is_fragment && left.takes_reserved(Reserved::Returns) {
        return left.primitive(Spot::Terminal);
    }
    Ok(Primitive::Text)
}

// TSeq ('|' TSeq)*, each by itself.
#[cycle(terms)]
#[tactic(auto, unfolding(crate::specs::TerminalSteps::term_rows))]
fn rows(alloc: Global, left: &mut Left<'_>, depth: usize) -> Result<Items<TermElement>, Stop>
    ensures reads { ReadsAs (term_rows (terms_inside depth) left.old) result left.new }
    ensures shorter { length left.new ≤ length left.old }
{
    let mut rows = Items::new(alloc);
    let first = row(alloc, left, depth)?;
    rows.push(first)?;
    'more: while left.takes(Symbol::Bar) {
        let next = row(alloc, left, depth)?;
        rows.push(next)?;
    }
    Ok(rows)
}

// TElem+
#[cycle(terms)]
#[tactic(auto, unfolding(crate::specs::TerminalSteps::term_row))]
fn row(alloc: Global, left: &mut Left<'_>, depth: usize) -> Result<TermElement, Stop>
    ensures reads { ReadsAs (term_row (terms_inside depth) left.old) result left.new }
    ensures shorter { length left.new ≤ length left.old }
{
    let elements = elements(alloc, left, depth)?;
    Ok(group_of(elements))
}

#[cycle(terms)]
#[tactic(auto, unfolding(crate::specs::TerminalSteps::term_elements))]
fn elements(alloc: Global, left: &mut Left<'_>, depth: usize) -> Result<Items<TermElement>, Stop>
    ensures reads { ReadsAs (term_elements (terms_inside depth) left.old) result left.new }
    ensures shorter { length left.new ≤ length left.old }
{
    let mut elements = Items::new(alloc);
    let first = element(alloc, left, depth)?;
    elements.push(first)?;
    'more: while begins_element(left) {
        let next = element(alloc, left, depth)?;
        elements.push(next)?;
    }
    Ok(elements)
}

// (String ('..' String)? | Regex | Word | '(' TChoice ')') Card?
#[cycle(terms)]
#[tactic(auto, unfolding(crate::specs::TerminalSteps::term_element))]
fn element(alloc: Global, left: &mut Left<'_>, depth: usize) -> Result<TermElement, Stop>
    ensures reads { ReadsAs (term_element (terms_inside depth) left.old) result left.new }
    ensures shorter { length left.new ≤ length left.old }
    ensures taken { OnOk result (length left.new < length left.old) }
{
    let part = part(alloc, left, depth)?;
    marked(alloc, left, part)
}

// String ('..' String)? | Regex | Word | '(' TChoice ')'
#[cycle(terms)]
#[tactic(auto, unfolding(crate::specs::TerminalSteps::term_part))]
fn part(alloc: Global, left: &mut Left<'_>, depth: usize) -> Result<TermElement, Stop>
    ensures reads { ReadsAs (term_part (terms_inside depth) left.old) result left.new }
    ensures shorter { length left.new ≤ length left.old }
    ensures taken { OnOk result (length left.new < length left.old) }
{
    if left.sees(Symbol::OpenParenthesis) {
        return choice_inside(alloc, left, depth);
    }
    plain_part(alloc, left)
}

#[cycle(terms)]
#[tactic(auto, unfolding(crate::specs::TerminalSteps::terms_inside, crate::specs::TerminalSteps::term_choice))]
fn choice_inside(alloc: Global, left: &mut Left<'_>, depth: usize) -> Result<TermElement, Stop>
    ensures reads { ReadsAs (terms_inside depth left.old) result left.new }
    ensures shorter { length left.new ≤ length left.old }
    ensures taken { OnOk result (length left.new < length left.old) }
{
    if depth == 0 {
        return Err(Stop::TooDeep);
    }
    left.skip();
    let rows = rows(alloc, left, depth - 1)?;
    left.symbol(Symbol::CloseParenthesis, Spot::Terminal)?;
    Ok(choice_of(rows))
}

// Whether an element begins with the next token.
fn begins_element(left: &Left<'_>) -> bool
    ensures { result ≡ begins_term left.now }
{
    left.sees_name() || left.sees_text() || left.sees_regex() || left.sees(Symbol::OpenParenthesis)
}

// String ('..' String)? | Regex | Word
#[tactic(auto, unfolding(crate::specs::TerminalSteps::plain_term))]
fn plain_part(alloc: Global, left: &mut Left<'_>) -> Result<TermElement, Stop>
    ensures reads { ReadsAs (plain_term left.old) result left.new }
    ensures shorter { length left.new ≤ length left.old }
    ensures taken { OnOk result (length left.new < length left.old) }
{
    if left.sees_regex() {
        let (pattern, span) = left.regex(alloc, Spot::Terminal)?;
        return Ok(TermElement::Pattern(pattern, span));
    }
    if left.sees_text() {
        let (value, span) = left.text(alloc, Spot::Terminal)?;
        return literal_or_range(alloc, left, value, span);
    }
    let (name, span) = left.name(alloc, Spot::Terminal)?;
    Ok(TermElement::Call(name, span))
}

// ('..' String)?, behind a string.
#[tactic(auto, unfolding(crate::specs::TerminalSteps::literal_or_range))]
fn literal_or_range(
    alloc: Global,
    left: &mut Left<'_>,
    value: Name,
    span: Span,
) -> Result<TermElement, Stop>
    ensures reads { ReadsAs (literal_or_range value span left.old) result left.new }
    ensures shorter { length left.new ≤ length left.old }
{
    if !left.takes(Symbol::DotDot) {
        return Ok(TermElement::Literal(value, span));
    }
    let (last, end) = left.text(alloc, Spot::Terminal)?;
    Ok(TermElement::Range(value, last, across(span, end)))
}

// Card?, behind the part that it marks.
#[tactic(auto, unfolding(crate::specs::TerminalSteps::marked_term))]
fn marked(alloc: Global, left: &mut Left<'_>, part: TermElement) -> Result<TermElement, Stop>
    ensures reads { ReadsAs (marked_term part left.old) result left.new }
    ensures shorter { length left.new ≤ length left.old }
{
    if left.takes(Symbol::Question) {
        return Ok(TermElement::Maybe(Boxed::new(alloc, part)?));
    }
    if left.takes(Symbol::Star) {
        return Ok(TermElement::Many(Boxed::new(alloc, part)?));
    }
    if left.takes(Symbol::Plus) {
        return Ok(TermElement::Some1(Boxed::new(alloc, part)?));
    }
    Ok(part)
}

// Alternatives as one element: the element itself where it is one.
#[tactic(auto, unfolding(crate::specs::Spans::term_choice_of))]
fn choice_of(mut rows: Items<TermElement>) -> TermElement
    ensures { result ≡ term_choice_of rows }
{
    if rows.len() == 1 {
        return rows.remove(0);
    }
    TermElement::Choice(rows)
}

// A row as one element: the element itself where it is one.
#[tactic(auto, unfolding(crate::specs::Spans::term_group_of))]
fn group_of(mut elements: Items<TermElement>) -> TermElement
    ensures { result ≡ term_group_of elements }
{
    if elements.len() == 1 {
        return elements.remove(0);
    }
    TermElement::Group(elements)
}
