// The recipes of the values of an assignment.
ghost use Rattle.std.specs.Prelude.{ℕ, ◌∷◌, [], OnOk, map};
ghost use Rattle.lw_look.specs.Choices.{inside};
ghost use Rattle.lw_look.specs.Sites.{PartSite, ◌▸◌, Value, IsPartAt};
ghost use Rattle.lw_kinds.specs.LexiconKnown.{IsKnownLexicon};
ghost use Rattle.lw_program.specs.Numbered.{value_puts};
ghost use Rattle.lw_program.specs.Drafted.{AddsFor, ArePartsAt, GoesTo, IsSingle, IsValueRecipe};

use crate::recipes::content::content_of;
use crate::recipes::recipe::ValueRecipe;
use lw_base::{NoMemory, PropId};
use lw_grammar::{Op, Value0};
use lw_kinds::lexicon::Lexicon;
use std::alloc::Global;

/// Where a value goes, and how.
#[derive(Clone, Copy)]
pub(crate) struct Target {
    pub(crate) prop: PropId,
    pub(crate) op: Op,
}

/// Puts the recipe of a value behind these; of a choice, that of each of its ways.
#[cycle(values)]
pub(crate) fn put_value(
    alloc: Global,
    lexicon: Lexicon<'_>,
    target: Target,
    value: &Value0,
    recipes: &mut Vec<ValueRecipe>,
) -> Result<(), NoMemory>
    requires known { IsKnownLexicon lexicon }
    ensures { (s : PartSite) → GoesTo lexicon.entry.g.now target s → IsPartAt lexicon.entry.g.now s (Value value.now) →
        OnOk result (AddsFor (IsValueRecipe lexicon.entry.g.now) (value_puts value.now s) recipes.old.items recipes.new.items) }
{
    match value {
        Value0::Keyword(..) => put_single(alloc, lexicon, target, value, recipes),
        Value0::Call(..) => put_single(alloc, lexicon, target, value, recipes),
        Value0::Cross(..) => put_single(alloc, lexicon, target, value, recipes),
        Value0::Choice(ways, _) => put_ways(alloc, lexicon, target, ways.as_slice(), recipes),
    }
}

/// The same of each way of a choice.
#[cycle(values)]
fn put_ways(
    alloc: Global,
    lexicon: Lexicon<'_>,
    target: Target,
    ways: &[Value0],
    recipes: &mut Vec<ValueRecipe>,
) -> Result<(), NoMemory>
    requires known { IsKnownLexicon lexicon }
    ensures { (s : PartSite) → ((i : ℕ) → GoesTo lexicon.entry.g.now target (s ▸ i)) → ArePartsAt lexicon.entry.g.now s (map Value ways.now) →
        OnOk result (AddsFor (IsValueRecipe lexicon.entry.g.now) (inside s 0 (map value_puts ways.now)) recipes.old.items recipes.new.items) }
{
    for way in ways {
        put_value(alloc, lexicon, target, way, recipes)?;
    }
    Ok(())
}

/// The same of a value that is no choice.
fn put_single(
    alloc: Global,
    lexicon: Lexicon<'_>,
    target: Target,
    value: &Value0,
    recipes: &mut Vec<ValueRecipe>,
) -> Result<(), NoMemory>
    requires known { IsKnownLexicon lexicon }
    requires single { IsSingle value.now }
    ensures { (s : PartSite) → GoesTo lexicon.entry.g.now target s → IsPartAt lexicon.entry.g.now s (Value value.now) →
        OnOk result (AddsFor (IsValueRecipe lexicon.entry.g.now) (s ∷ []) recipes.old.items recipes.new.items) }
{
    let content = content_of(alloc, lexicon, target.op, value)?;
    recipes.push(ValueRecipe {
        prop: target.prop,
        content,
    })?;
    Ok(())
}
