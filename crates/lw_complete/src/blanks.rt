// The text in which the word that is being typed is left out.
ghost use Rattle.std.specs.Prelude.{◌≡◌, ◌≤◌, ◌<◌, ◌+◌, ◌++◌, List, Some, All, IfOk, length, map};
ghost use Rattle.lw_base.specs.declared.limits.TheConstants.{LONGEST_DOCUMENT};
ghost use Rattle.lw_grammar.specs.Kinds.{Kinds};
ghost use Rattle.lw_places.specs.Starting.{moved_by};
ghost use Rattle.lw_tokens.specs.Lexicon.{Lexicon};
ghost use Rattle.lw_complete.specs.Starts.{IsBlankIfCut};
ghost use Rattle.lw_complete.specs.Typing.{IsTypedBy};

use crate::starting::Blank;
use crate::typing::Typing;
use lw_base::{NoMemory, Token};
use lw_lang::LexFault;
use std::alloc::Global;

/// The text without the word, with its tokens. None where what stands behind the offset is not cut into tokens.
pub(crate) fn blank(alloc: Global, typing: &Typing<'_>) -> Result<Option<Blank>, NoMemory>
    requires short { length typing.now.front.now + length typing.now.rest.now ≤ LONGEST_DOCUMENT }
    ensures { (of : Kinds) (lexicon : Lexicon) → IsTypedBy of lexicon typing.now →
        IfOk result (IsBlankIfCut typing.now lexicon) }
{
    let others = match typing.language.cut(alloc, typing.rest) {
        Ok(others) => others,
        Err(LexFault::NoToken(_)) => return Ok(None),
        Err(LexFault::NoMemory) => return Err(NoMemory),
    };
    Ok(Some(Blank {
        text: typing.with(alloc, typing.rest.text())?,
        tokens: joined(alloc, typing, others.as_slice())?,
        others,
    }))
}

/// The tokens before the word, and these of what stands behind the offset behind them.
fn joined(alloc: Global, typing: &Typing<'_>, others: &[Token]) -> Result<Vec<Token>, NoMemory>
    requires short { length typing.now.front.now + length typing.now.rest.now ≤ LONGEST_DOCUMENT }
    requires within { All (λ t. (t.span.start ≤ length typing.now.rest.now) × (t.span.end ≤ length typing.now.rest.now)) others.now }
    ensures { IfOk result (λ tokens. tokens.items ≡ typing.now.tokens.now ++ map (moved_by (length typing.now.front.now)) others.now) }
{
    let by = typing.front.bytes().len() as u32;
    let mut tokens = Vec::from_slice(alloc, typing.tokens)?;
    'tokens: for token in others {
        tokens.push(moved_by(by, *token))?;
    }
    Ok(tokens)
}

/// The token so many bytes further behind.
fn moved_by(by: u32, token: Token) -> Token
    requires { (by + token.span.start ≤ 4294967295) × (by + token.span.end ≤ 4294967295) }
    ensures { result ≡ moved_by by token }
{
    let mut moved = token;
    moved.span.start += by;
    moved.span.end += by;
    moved
}
