// The marks of the readings of tokens.
ghost use Rattle.std.specs.Prelude.{ℕ, ◌≡◌, ◌↔◌, [], ◌∷◌, All, IfOk, IsTrue};
ghost use Rattle.lw_grammar.specs.declared.grammar.Grammar.{Grammar};
ghost use Rattle.lw_grammar.specs.Kinds.{Kinds};
ghost use Rattle.lw_parse.specs.Parsers.{AreOfKinds, ParsesFaultless};
ghost use Rattle.lw_program.specs.declared.recipes.mark.TreeMark.TheVariants as mark;
ghost use Rattle.lw_tokens.specs.Cut.{kinds, visible};
ghost use Rattle.lw_parse.specs.Readings.{MeanReadings};

use crate::Parser;
use crate::opened::reading::read_front;
use lw_base::{Items, NoMemory, RuleId, Token};
use lw_program::recipes::TreeMark;
use std::alloc::Global;

/// The readings of these tokens, by their marks.
pub(crate) fn readings_of(
    alloc: Global,
    parser: &Parser,
    tokens: &[Token],
) -> Result<Vec<Items<TreeMark>>, NoMemory>
    requires { (g : Grammar) × (of : Kinds) × (k : ℕ) × ParsesFaultless g of k parser.now × AreOfKinds of tokens.now }
    ensures { (g : Grammar) (of : Kinds) (k : ℕ) → ParsesFaultless g of k parser.now → AreOfKinds of tokens.now →
        IfOk result (λ found. MeanReadings g of parser.now.entry (kinds (visible tokens.now)) found.items) }
{
    if are_hidden(tokens) {
        return begun(alloc, parser.entry());
    }
    let mut fronts = read_front(alloc, parser, tokens)?;
    fronts.readings(alloc)
}

/// Whether none of these is visible.
fn are_hidden(tokens: &[Token]) -> bool
    ensures { IsTrue result ↔ All (λ t. IsTrue t.hidden) tokens.now }
{
    tokens.iter().all(|token| token.hidden)
}

/// The one reading of no tokens: the node of the entry rule begins.
fn begun(alloc: Global, entry: RuleId) -> Result<Vec<Items<TreeMark>>, NoMemory>
    ensures { IfOk result (λ found. found.items ≡ (mark.Open entry ∷ []) ∷ []) }
{
    let mut marks = Items::new(alloc);
    marks.push(TreeMark::Open(entry))?;
    let mut found = Vec::new(alloc);
    found.push(marks)?;
    Ok(found)
}
