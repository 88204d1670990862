// The tables of a grammar.
ghost use Rattle.std.specs.Prelude.{ℕ, ◌≡◌, ◌≤◌, [], ◌∷◌, ◌++◌, All, IfErr, IfOk, OnOk};
ghost use Rattle.std.specs.List.{AllZip};
ghost use Rattle.lw_grammar.specs.Kinds.{Kinds, AreKinds};
ghost use Rattle.lw_grammar.specs.KindTexts.{texts_of};
ghost use Rattle.lw_grammar.specs.Size.{size};
ghost use Rattle.lw_look.specs.Looks.{IsLL};
ghost use Rattle.lw_look.specs.Strings.{HasMoreStrings};
ghost use Rattle.lw_look.specs.Supplied.{NodesAreTold};
ghost use Rattle.lw_kinds.specs.LexiconKnown.{IsKnownLexicon};
ghost use Rattle.lw_lookahead.specs.declared.points.point.TheConstants.{MOST_STRINGS};
ghost use Rattle.lw_lookahead.specs.Conflicts.{CausesNoTables};
ghost use Rattle.lw_lookahead.specs.Seen.{AreEntriesOfChoice, AreSeen, CausesNoChoices};
ghost use Rattle.lw_lookahead.specs.Shared.{AreFewHeads, CausesNoEntries, CausesNoEntriesAt};
ghost use Rattle.lw_lookahead.specs.Tables.{AreTables};

use crate::conflict::conflict_at;
use crate::entries::Entries;
use crate::points::{Point, points};
use crate::{LookFault, Tables};
use indexmap::IndexMap;
use lw_base::NoMemory;
use lw_first::follow::rule_followers;
use lw_first::heads::Head;
use lw_first::{First, rule_heads};
use lw_kinds::lexicon::Lexicon;
use std::alloc::Global;

/// The tables of a grammar for windows of `k` kinds. Strings are counted first; then the first choice decides at which a window comes next
/// at two ways.
pub fn tables(alloc: Global, lexicon: Lexicon<'_>, k: usize) -> Result<Tables, LookFault>
    requires known { IsKnownLexicon lexicon }
    requires most { k ≤ 3 }
    requires told { NodesAreTold lexicon.g.now }
    requires small { size lexicon.g.now ≤ 65535 }
    ensures tables { (kinds : Kinds) → AreKinds lexicon.entry.g.now kinds → IfOk result (AreTables lexicon.entry.g.now kinds k) }
    ensures ll { (kinds : Kinds) → AreKinds lexicon.entry.g.now kinds → OnOk result (IsLL lexicon.entry.g.now kinds k) }
    ensures few { (kinds : Kinds) → AreKinds lexicon.entry.g.now kinds → OnOk result (¬ HasMoreStrings lexicon.entry.g.now kinds k MOST_STRINGS) }
    ensures fault { (kinds : Kinds) → AreKinds lexicon.entry.g.now kinds → IfErr result (CausesNoTables lexicon.entry.g.now kinds k) }
{
    let choices = choices(alloc, &lexicon, k)?;
    let points = all_entries(alloc, &lexicon, k, choices.as_slice())?;
    Ok(Tables { k, points })
}

/// The choices of a grammar with the heads of their ways.
fn choices(alloc: Global, lexicon: &Lexicon<'_>, k: usize) -> Result<Vec<Point>, LookFault>
    requires known { IsKnownLexicon lexicon.now }
    requires most { k ≤ 3 }
    requires told { NodesAreTold lexicon.now.g.now }
    requires small { size lexicon.now.g.now ≤ 65535 }
    ensures choices { (kinds : Kinds) → AreKinds lexicon.now.g.now kinds → IfOk result (λ points. AreSeen lexicon.now.g.now kinds k points.items) }
    ensures short { IfOk result (λ points. All (AreFewHeads k) points.items) }
    ensures few { (kinds : Kinds) → AreKinds lexicon.now.g.now kinds → OnOk result (¬ HasMoreStrings lexicon.now.g.now kinds k MOST_STRINGS) }
    ensures fault { (kinds : Kinds) → AreKinds lexicon.now.g.now kinds → IfErr result (CausesNoChoices lexicon.now.g.now kinds k) }
{
    let heads = rule_heads(alloc, *lexicon, k)?;
    let first = First {
        lexicon: *lexicon,
        k,
        heads: heads.as_slice(),
    };
    let followers = rule_followers(alloc, &first)?;
    Ok(points(alloc, &first, followers.as_slice())?)
}

/// The entries of choices, in their order, up to the first that has a conflict.
fn all_entries(
    alloc: Global,
    lexicon: &Lexicon<'_>,
    k: usize,
    choices: &[Point],
) -> Result<Vec<IndexMap<Head, u16>>, LookFault>
    requires known { IsKnownLexicon lexicon.now }
    requires most { k ≤ 3 }
    requires short { All (AreFewHeads k) choices.now }
    ensures entries { IfOk result (λ all. AllZip (λ point entries. AreEntriesOfChoice k point entries.entries) choices.now all.items) }
    ensures fault { (kinds : Kinds) → AreKinds lexicon.now.g.now kinds → IfErr result (CausesNoEntries (texts_of kinds) k choices.now) }
{
    let mut all = Vec::new(alloc);
    for choice in choices {
        match entries(alloc, lexicon, k, choice) {
            Ok(own) => put_behind(&mut all, own)?,
            Err(fault) => return Err(fault),
        }
    }
    Ok(all)
}

/// Puts the entries of a choice behind those of others.
fn put_behind(all: &mut Vec<IndexMap<Head, u16>>, own: IndexMap<Head, u16>) -> Result<(), NoMemory>
    ensures { OnOk result (all.new.items ≡ all.old.items ++ own ∷ []) }
{
    Ok(all.push(own)?)
}

/// The entries of a choice, if it has no conflict.
fn entries(
    alloc: Global,
    lexicon: &Lexicon<'_>,
    k: usize,
    choice: &Point,
) -> Result<IndexMap<Head, u16>, LookFault>
    requires known { IsKnownLexicon lexicon.now }
    requires most { k ≤ 3 }
    requires short { AreFewHeads k choice.now }
    ensures entries { IfOk result (λ entries. AreEntriesOfChoice k choice.now entries.entries) }
    ensures fault { (kinds : Kinds) → AreKinds lexicon.now.g.now kinds → IfErr result (CausesNoEntriesAt (texts_of kinds) k choice.now) }
{
    let Entries { ways, pair } = Entries::of(alloc, choice.ways.as_slice())?;
    match pair {
        None => Ok(ways),
        Some(pair) => Err(LookFault::Conflict(conflict_at(
            alloc, lexicon, k, choice, &ways, pair,
        )?)),
    }
}
