// The first token that no sentence has after those before it.
ghost use Rattle.std.specs.Prelude.{ℕ, ◌≡◌, ◌≤◌, IfOk, MatchOption};
ghost use Rattle.lw_grammar.specs.declared.grammar.Grammar.{Grammar};
ghost use Rattle.lw_grammar.specs.Kinds.{Kinds};
ghost use Rattle.lw_look.specs.Supplied.{IsSupplied};
ghost use Rattle.lw_tree.specs.Parts.{Tile};
ghost use Rattle.lw_parse.specs.Outcomes.{CanStand, IsFirstImpossible};
ghost use Rattle.lw_parse.specs.Parsers.{AreOfKinds, IsParserOf};

use crate::Parser;
use lw_base::{NoMemory, Token};
use lw_viable::Fronts;
use std::alloc::Global;

/// The first token that no sentence has after those before it, with its number, if there is one. All readings of the tokens are kept, from the
/// first on, and no table is looked at.
pub(crate) fn first_impossible(
    alloc: Global,
    parser: &Parser,
    tokens: &[Token],
) -> Result<Option<(u32, Token)>, NoMemory>
    requires known { (g : Grammar) × (kinds : Kinds) × (k : ℕ) × IsParserOf g kinds k parser.now × AreOfKinds kinds tokens.now }
    requires tile { Tile 0 tokens.now }
    ensures { (g : Grammar) (kinds : Kinds) (k : ℕ) → IsParserOf g kinds k parser.now → IsSupplied g kinds → AreOfKinds kinds tokens.now →
        IfOk result (λ found. MatchOption found (CanStand g kinds tokens.now) (λ first. IsFirstImpossible g kinds tokens.now first.0 first.1)) }
{
    let mut fronts = Fronts::start(alloc, parser.program(), parser.begins(), parser.entry())?;
    for (number, token) in tokens.iter().enumerate() {
        if token.hidden {
            continue;
        }
        if !fronts.step(*token)? {
            return Ok(Some((numbered(number, *token), *token)));
        }
    }
    Ok(None)
}

/// The number of a token as one of 32 bits. No token begins before its number, since none is empty.
fn numbered(number: usize, token: Token) -> u32
    requires { number ≤ token.span.start }
    ensures { result ≡ number }
{
    let _start = token.span.start;
    number as u32
}
