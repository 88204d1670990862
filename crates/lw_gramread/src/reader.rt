// Reading a grammar file.
ghost use Rattle.std.specs.Prelude.{◌≡◌, ◌≢◌, ◌≤◌, length, All, IfOk, IfErr};
ghost use Rattle.lw_base.specs.declared.limits.TheConstants.{LONGEST_TEXT};
ghost use Rattle.lw_grammar.specs.declared.grammar.Grammar.{Grammar};
ghost use Rattle.lw_gramread.specs.declared.reader.ReadFault.TheVariants.{NoMemory as no_memory};
ghost use Rattle.lw_gramlex.specs.Places.{IsPlace, IsOfKind};
ghost use Rattle.lw_gramlex.specs.Values.{part_of};
ghost use Rattle.lw_gramread.specs.Lexemes.{lexemes_of, place_of};
ghost use Rattle.lw_gramread.specs.Syntax.{Syntax};
ghost use Rattle.lw_gramread.specs.Forms.{form_left};
ghost use Rattle.lw_gramread.specs.Refusals.{IsRefusal, Tells, front_of, place_or_end, text_end};
ghost use Rattle.lw_gramread.specs.PlacesWithin.{StandsWithin, IsRefusalWithin};

use crate::form::{Form, form_of};
use crate::lexeme::{Lexeme, lexeme_of};
use file::file;
use left::{Left, Spot, Stop};
use lw_base::{Name, NoMemory, Span};
use lw_gramlex::{FileToken, front_tokens};
use lw_grammar::Grammar;
use std::alloc::Global;

mod elements;
mod file;
pub(crate) mod left;
mod rules;
mod terminals;
mod types;
mod values;

/// Why a grammar file was not read.
#[derive(Clone, Copy, Debug, PartialEq, Eq)]
pub enum ReadFault {
    /// The first token that cannot follow, or the file's end where the file ends too early.
    Unexpected(Span),
    /// The same, where the token tells a form of Langium's grammar language that is left out.
    LeftOut(Span, Form),
    /// The first parenthesis that is opened inside 64 other open ones.
    TooDeep(Span),
    NoMemory,
}

impl From<NoMemory> for ReadFault {
    ghost from_gives = { λ _ fault. fault ≡ no_memory };

    fn from(_: NoMemory) -> Self {
        ReadFault::NoMemory
    }
}

/// The grammar that a file says. The text has at most 64 MiB.
///
/// A text that says none is refused at its first token that cannot follow, or at its first parenthesis that
/// is too deep where that comes earlier.
pub fn read_grammar(alloc: Global, text: &Name) -> Result<Grammar, ReadFault>
    requires { length text.now ≤ LONGEST_TEXT }
    ensures says { IfOk result (Syntax text.now) }
    ensures only { IfOk result
        (λ grammar. (other : Grammar) → Syntax text.now other → other ≡ grammar) }
    ensures stand { IfOk result (StandsWithin text.now) }
    ensures refusal { IfErr result (IsRefusal text.now) }
    ensures place { IfErr result (IsRefusalWithin text.now) }
    ensures nothing { IfErr result
        (λ fault. fault ≢ no_memory → (grammar : Grammar) → ¬ Syntax text.now grammar) }
{
    let tokens = front_tokens(alloc, text)?;
    let lexemes = lexemes_of(alloc, text, tokens.as_slice())?;
    let mut left = Left::new(lexemes.as_slice());
    match file(alloc, &mut left) {
        Ok(grammar) => Ok(grammar),
        Err(stop) => Err(fault_at(text, lexemes.as_slice(), left.rest(), stop)),
    }
}

// What the tokens say.
fn lexemes_of(alloc: Global, text: &Name, tokens: &[FileToken]) -> Result<Vec<Lexeme>, NoMemory>
    requires places { All (λ t. IsPlace text.now t.span) tokens.now }
    requires forms { All (λ t. IsOfKind t.kind (part_of text.now t.span)) tokens.now }
    ensures { IfOk result (λ lexemes. lexemes.items ≡ lexemes_of text.now tokens.now) }
{
    let mut lexemes = Vec::new(alloc);
    'saying: for token in tokens {
        lexemes.push(lexeme_of(alloc, text, token)?)?;
    }
    Ok(lexemes)
}

// The fault of a reading that stopped where these tokens are left.
fn fault_at(text: &Name, lexemes: &[Lexeme], rest: &[Lexeme], stop: Stop) -> ReadFault
    requires text { length text.now ≤ LONGEST_TEXT }
    requires rest { length rest.now ≤ length lexemes.now }
    ensures { Tells stop (place_or_end text.now rest.now)
        (λ spot. form_left spot (front_of lexemes.now rest.now) rest.now) result }
{
    let span = match rest {
        [lexeme, ..] => lexeme.span(),
        [] => end_of(text),
    };
    match stop {
        Stop::NoMemory => ReadFault::NoMemory,
        Stop::TooDeep => ReadFault::TooDeep(span),
        Stop::Unexpected(spot) => {
            match told_form(spot, &lexemes[..lexemes.len() - rest.len()], rest) {
                Some(form) => ReadFault::LeftOut(span, form),
                None => ReadFault::Unexpected(span),
            }
        }
    }
}

// The form that the first of the tokens left tells.
fn told_form(spot: Spot, before: &[Lexeme], rest: &[Lexeme]) -> Option<Form>
    ensures { result ≡ form_left spot before.now rest.now }
{
    match rest {
        [lexeme, ..] => form_of(spot, before, lexeme),
        [] => None,
    }
}

// An empty place at the file's end.
fn end_of(text: &Name) -> Span
    requires { length text.now ≤ LONGEST_TEXT }
    ensures { result ≡ text_end text.now }
{
    let end = text.bytes().len() as u32;
    Span { start: end, end }
}
