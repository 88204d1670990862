// The cut of a grammar file into its tokens.
ghost use Rattle.std.specs.Prelude.{ℕ, ◌<◌, ◌≤◌, length, IfOk, All};
ghost use Rattle.lw_base.specs.declared.limits.TheConstants.{LONGEST_TEXT};
ghost use Rattle.lw_gramlex.specs.FileTokens.{IsHidden, IsFileToken};
ghost use Rattle.lw_gramlex.specs.FileCut.{IsFrontCut};
ghost use Rattle.lw_gramlex.specs.Places.{IsPlace, IsOfKind};
ghost use Rattle.lw_gramlex.specs.Values.{part_of};

use crate::hidden::hidden_length;
use crate::regex::regex_length;
use crate::string::string_length;
use crate::symbol::symbol_at;
use crate::token::{FileKind, FileToken};
use crate::word::word_length;
use lw_base::{Name, NoMemory, Span};
use std::alloc::Global;

/// The tokens of a grammar file up to its end, or up to the first that is no token and can follow nowhere,
/// with that one. The text has at most 64 MiB.
///
/// A byte is read a fixed number of times, however many openings nothing closes: the first of them ends it.
///
/// The one error is want of memory.
pub fn front_tokens(alloc: Global, text: &Name) -> Result<Vec<FileToken>, NoMemory>
    requires { length text.now ≤ LONGEST_TEXT }
    ensures cut { IfOk result (λ tokens. IsFrontCut text.now tokens.items) }
    ensures places { IfOk result (λ tokens. All (λ t. IsPlace text.now t.span) tokens.items) }
    ensures forms { IfOk result
        (λ tokens. All (λ t. IsOfKind t.kind (part_of text.now t.span)) tokens.items) }
{
    let text = text.text();
    let mut tokens = Vec::new(alloc);
    let mut at = 0;
    'front: while at < text.len() {
        let rest = &text[at..];
        match hidden_length(rest) {
            Some(n) => at += n,
            None => {
                let (kind, n) = token_at(rest);
                let span = Span {
                    start: at as u32,
                    end: (at + n) as u32,
                };
                tokens.push(FileToken { kind, span })?;
                if kind == FileKind::Other {
                    return Ok(tokens);
                }
                at += n;
            }
        }
    }
    Ok(tokens)
}

// The token at the front of the text and how many bytes it has.
fn token_at(rest: &str) -> (FileKind, usize)
    requires some { 0 < length rest.now }
    requires few { length rest.now ≤ LONGEST_TEXT }
    requires shown { (n : ℕ) → ¬ IsHidden rest.now n }
    ensures { IsFileToken rest.now result.0 result.1 }
{
    if let Some(n) = word_length(rest) {
        return (FileKind::Word, n);
    }
    if let Some(n) = string_length(rest) {
        return (FileKind::Text, n);
    }
    if let Some((n, flags)) = regex_length(rest) {
        return (FileKind::Regex(flags), n);
    }
    if let Some((symbol, n)) = symbol_at(rest) {
        return (FileKind::Symbol(symbol), n);
    }
    match rest.chars().next() {
        Some(first) => (FileKind::Other, first.len_utf8()),
        None => unreachable!(),
    }
}
