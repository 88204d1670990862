// What a name is read as where it is written.
ghost use Rattle.std.specs.Prelude.{◌≡◌, ◌≤◌, ◌↔◌, ◌∷◌, List, [], Some, slice_get, Contains, IfOk, IsTrue, length};
ghost use Rattle.lw_base.specs.declared.numbers.TypeId.{TypeId};
ghost use Rattle.lw_viable.specs.Gives.{PlacesGive};
ghost use Rattle.lw_builder.specs.Built.{ArePartsOf};
ghost use Rattle.lw_builder.specs.Contents.{said_in};
ghost use Rattle.lw_grammar.specs.declared.grammar.Grammar.{Grammar};
ghost use Rattle.lw_grammar.specs.Kinds.{Kinds};
ghost use Rattle.lw_reading.specs.Brackets.{joined_texts};
ghost use Rattle.lw_places.specs.Starting.{ReferenceNext};
ghost use Rattle.lw_parse.specs.Parsers.{AreOfKinds};
ghost use Rattle.lw_program.specs.Says.{Task};
ghost use Rattle.lw_program.specs.declared.recipes.recipe.TextForm.{TextForm};
ghost use Rattle.lw_program.specs.declared.recipes.recipe.ValueRecipe.{ValueRecipe};
ghost use Rattle.lw_lexer.specs.Recut.{added, added_behind};
ghost use Rattle.lw_tokens.specs.Cut.{kinds, visible};
ghost use Rattle.lw_tokens.specs.Lexicon.{Lexicon};
ghost use Rattle.lw_viable.specs.Aims.{EndsSome};
ghost use Rattle.lw_viable.specs.Fronts.{IsProgramWith};
ghost use Rattle.lw_viable.specs.Readings.{HasTask};
ghost use Rattle.lw_viable.specs.Visiting.{IsReferencePut};
ghost use Rattle.lw_complete.specs.Starts.{AllComeNext, ComesAt, IsReadAsStart, IsReadAt, IsStartNext};
ghost use Rattle.lw_complete.specs.Tried.{IsWrittenFor};

use crate::known::Known;
use crate::typing::Typing;
use lw_base::{KindId, Name, NoMemory, Token};
use lw_builder::said_by;
use lw_lexer::recut::Recut;
use lw_parse::Parser;
use lw_parse::opened::read_over;
use lw_program::recipes::Content;
use lw_viable::{ReferenceStart, only_token};
use std::alloc::Global;

/// A name, and the end of the text before the word with it behind.
#[derive(Clone, Copy)]
pub(crate) struct Written<'w> {
    pub(crate) name: &'w Name,
    pub(crate) recut: &'w Recut,
}

/// Whether the name is read as one of these starts; where `leads`, as one by which it leads somewhere in the tree of what was read before.
pub(crate) fn is_read(
    alloc: Global,
    typing: &Typing<'_>,
    parser: &Parser,
    known: &[Known<'_>],
    written: &Written<'_>,
    leads: bool,
) -> Result<bool, NoMemory>
    requires known { (of : Kinds) × (lexicon : Lexicon) × (tasks : List Task) × IsWrittenFor of lexicon tasks typing.now parser.now written.now
        × AllComeNext of tasks typing.now known.now }
    ensures { (of : Kinds) (lexicon : Lexicon) (tasks : List Task) → IsWrittenFor of lexicon tasks typing.now parser.now written.now →
        AllComeNext of tasks typing.now known.now → IfOk result (λ read. IsTrue read ↔ ((one : Known) × Contains known.now one
        × IsReadAt of tasks typing.now leads (added_behind written.now.recut.now) written.now.name.now one)) }
{
    'known: for one in known {
        if is_read_at(alloc, typing, parser, one, written, leads)? {
            return Ok(true);
        }
    }
    Ok(false)
}

/// Whether the name is read as this start; where `leads`, as one by which it leads somewhere in the tree of what was read before.
fn is_read_at(
    alloc: Global,
    typing: &Typing<'_>,
    parser: &Parser,
    one: &Known<'_>,
    written: &Written<'_>,
    leads: bool,
) -> Result<bool, NoMemory>
    requires known { (of : Kinds) × (lexicon : Lexicon) × (tasks : List Task) × IsWrittenFor of lexicon tasks typing.now parser.now written.now
        × IsStartNext of tasks typing.now one.now.start.now }
    ensures { (of : Kinds) (lexicon : Lexicon) (tasks : List Task) → IsWrittenFor of lexicon tasks typing.now parser.now written.now →
        IsStartNext of tasks typing.now one.now.start.now →
        IfOk result (λ read. IsTrue read ↔ IsReadAt of tasks typing.now leads (added_behind written.now.recut.now) written.now.name.now one.now) }
{
    if !may_lead(one, written.name, leads) {
        return Ok(false);
    }
    is_read_as(alloc, typing, parser, one.start, written)
}

/// Whether the name is one by which the start leads somewhere in the tree of what was read before, where `leads`.
fn may_lead(one: &Known<'_>, name: &Name, leads: bool) -> bool
    ensures { IsTrue result ↔ (IsTrue leads → Contains one.now.front.names name.now) }
{
    !leads || one.front.names.has(name)
}

/// Whether the tokens are what the value of this start may read, and say the name.
fn is_read_as(
    alloc: Global,
    typing: &Typing<'_>,
    parser: &Parser,
    start: &ReferenceStart,
    written: &Written<'_>,
) -> Result<bool, NoMemory>
    requires known { (of : Kinds) × (lexicon : Lexicon) × (tasks : List Task) × IsWrittenFor of lexicon tasks typing.now parser.now written.now
        × IsStartNext of tasks typing.now start.now }
    ensures { (of : Kinds) (lexicon : Lexicon) (tasks : List Task) → IsWrittenFor of lexicon tasks typing.now parser.now written.now →
        IsStartNext of tasks typing.now start.now → IfOk result (λ read. (next : ReferenceNext) → ComesAt of typing.now next start.now →
        IsTrue read ↔ IsReadAsStart of tasks typing.now next start.now (added_behind written.now.recut.now) written.now.name.now) }
{
    let added = written.recut.added();
    if added.is_empty() {
        return Ok(false);
    }
    if !says(alloc, parser, start, written)? {
        return Ok(false);
    }
    gives(alloc, parser, start, added)
}

/// Whether the tokens are what the value of this start may read. Where that is always one token of one kind, no readings are made for it.
pub(crate) fn gives(
    alloc: Global,
    parser: &Parser,
    start: &ReferenceStart,
    added: &[Token],
) -> Result<bool, NoMemory>
    requires known { (g : Grammar) × (of : Kinds) × (tasks : List Task) × IsProgramWith g of tasks parser.now.program parser.now.begins
        × HasTask g of tasks start.now.value × AreOfKinds of added.now }
    ensures { (g : Grammar) (of : Kinds) (tasks : List Task) → IsProgramWith g of tasks parser.now.program parser.now.begins →
        HasTask g of tasks start.now.value → AreOfKinds of added.now →
        IfOk result (λ given. IsTrue given ↔ EndsSome (PlacesGive g of tasks (start.now.value ∷ [])) (kinds (visible added.now))) }
{
    if let Some(kind) = only_token(parser.program(), start.value) {
        return are_only(alloc, added, kind);
    }
    let fronts = read_over(alloc, parser, &[start.value], added)?;
    Ok(fronts.complete())
}

/// Whether one of the tokens is of this kind, and the others are hidden.
fn are_only(alloc: Global, added: &[Token], kind: KindId) -> Result<bool, NoMemory>
    ensures { IfOk result (λ only. IsTrue only ↔ (kinds (visible added.now) ≡ kind.0 ∷ [])) }
{
    let tokens = shown(alloc, added)?;
    Ok(is_one(tokens.as_slice(), kind))
}

fn is_one(tokens: &[Token], kind: KindId) -> bool
    ensures { IsTrue result ↔ (kinds tokens.now ≡ kind.0 ∷ []) }
{
    matches!(tokens, [token] if token.kind == kind)
}

/// Whether the visible ones of the tokens say the name, in the form in which the start's value is looked up.
pub(crate) fn says(
    alloc: Global,
    parser: &Parser,
    start: &ReferenceStart,
    written: &Written<'_>,
) -> Result<bool, NoMemory>
    requires tail { written.now.recut.now.tail ≤ length written.now.recut.now.tokens.items }
    requires parts { ArePartsOf written.now.recut.now.text (added written.now.recut.now) }
    requires recipe { IsReferencePut parser.now.recipes start.now.put }
    ensures { (recipe : ValueRecipe) (want : TypeId) (form : TextForm) → slice_get parser.now.recipes.made start.now.put ≡ Some recipe →
        recipe.content ≡ Content.Reference want form →
        IfOk result (λ says. IsTrue says ↔ (said_in form (joined_texts written.now.recut.now.text (visible (added written.now.recut.now))) ≡ written.now.name.now)) }
{
    let Content::Reference(_, form) = &parser.recipes().value(start.put).content else {
        unreachable!()
    };
    let tokens = shown(alloc, written.recut.added())?;
    let said = said_by(alloc, *form, &written.recut.text, tokens.as_slice())?;
    Ok(said == *written.name)
}

/// The tokens that are not hidden.
pub(crate) fn shown(alloc: Global, tokens: &[Token]) -> Result<Vec<Token>, NoMemory>
    ensures { IfOk result (λ found. found.items ≡ visible tokens.now) }
{
    let found = tokens
        .iter()
        .filter(|token| !token.hidden)
        .copied()
        .collect(alloc)?;
    Ok(found)
}
