// Where tokens stand in a text, and what they say together.
ghost use Rattle.std.specs.Prelude.{◌≡◌, ◌≤◌, IfOk, drop, length, slice_range, take};
ghost use Rattle.lw_gramlex.specs.Places.{IsPlace};
ghost use Rattle.lw_reading.specs.Brackets.{joined_texts, span_of_tokens as span_by};
ghost use Rattle.lw_builder.specs.Built.{ArePartsOf};

use lw_base::{Name, NoMemory, Span, Token};
use std::alloc::Global;

/// From the first of these tokens to the last.
pub(crate) fn span_of_tokens(tokens: &[Token]) -> Span
    ensures { result ≡ span_by tokens.now }
{
    match (tokens.first(), tokens.last()) {
        (Some(first), Some(last)) => Span {
            start: first.span.start,
            end: last.span.end,
        },
        _ => Span { start: 0, end: 0 },
    }
}

/// Of the first `read` tokens those that stand behind the first `first`.
pub(crate) fn read_since(tokens: &[Token], read: usize, first: usize) -> &[Token]
    requires { read ≤ length tokens.now }
    ensures { result.now ≡ drop first (take read tokens.now) }
{
    if first < read {
        tokens.split_at(read).0.split_at(first).1
    } else {
        &[]
    }
}

/// The texts of these tokens, one directly behind the other.
pub(crate) fn joined_texts(alloc: Global, text: &Name, tokens: &[Token]) -> Result<Name, NoMemory>
    requires { ArePartsOf text.now tokens.now }
    ensures { IfOk result (λ all. all ≡ joined_texts text.now tokens.now) }
{
    let mut all = String::new(alloc);
    for token in tokens {
        all.push_str(part_at(text, token.span))?;
    }
    Ok(Name::from_string(all))
}

/// What stands at this part of the text.
fn part_at(text: &Name, span: Span) -> &str
    requires { IsPlace text.now span }
    ensures { result.now ≡ slice_range text.now span.start span.end }
{
    &text.text()[span.start as usize..span.end as usize]
}
