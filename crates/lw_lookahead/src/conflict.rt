// A choice at which ways share a window.
ghost use Rattle.std.specs.Prelude.{ℕ, ◌≤◌, ◌↔◌, Contains, IsTrue, IfOk};
ghost use Rattle.lw_grammar.specs.Kinds.{Kinds, AreKinds};
ghost use Rattle.lw_grammar.specs.KindTexts.{texts_of};
ghost use Rattle.lw_kinds.specs.LexiconKnown.{IsKnownLexicon};
ghost use Rattle.lw_lookahead.specs.Entries.{AreEntries, AreFirstWays, IsLeastPair};
ghost use Rattle.lw_lookahead.specs.Shared.{AreFewHeads, StandsInFront, IsConflictAt, IsFirstPrintedOf, KeepsFirst, heads_at};

use crate::Conflict;
use crate::points::Point;
use crate::printed::print;
use indexmap::IndexMap;
use lw_base::{Name, NoMemory};
use lw_first::heads::Head;
use lw_kinds::lexicon::Lexicon;
use std::alloc::Global;

/// The conflict of a choice, whose heads have these first ways, where this is the least pair of ways that have one in common.
pub(crate) fn conflict_at(
    alloc: Global,
    lexicon: &Lexicon<'_>,
    k: usize,
    point: &Point,
    ways: &IndexMap<Head, u16>,
    pair: (u16, u16),
) -> Result<Conflict, NoMemory>
    requires known { IsKnownLexicon lexicon.now }
    requires most { k ≤ 3 }
    requires short { AreFewHeads k point.now }
    requires first { AreFirstWays (heads_at point.now) ways.now.entries }
    requires pair { IsLeastPair (heads_at point.now) pair }
    ensures { (kinds : Kinds) → AreKinds lexicon.now.g.now kinds → IfOk result (IsConflictAt (texts_of kinds) k point.now) }
{
    let (first, second) = pair;
    let heads = point.ways[usize::from(second) - 1].as_slice();
    match first_printed(alloc, lexicon, k, heads, ways, first)? {
        Some((shared, text)) => Ok(Conflict {
            file: point.file,
            span: point.span,
            first,
            second,
            shared,
            text,
        }),
        None => unreachable!(),
    }
}

/// Of the heads whose first way is this one, the one whose window is printed first, with its text.
fn first_printed(
    alloc: Global,
    lexicon: &Lexicon<'_>,
    k: usize,
    heads: &[Head],
    ways: &IndexMap<Head, u16>,
    way: u16,
) -> Result<Option<(Head, Name)>, NoMemory>
    requires known { IsKnownLexicon lexicon.now }
    requires most { k ≤ 3 }
    requires entries { AreEntries k ways.now.entries }
    ensures { (kinds : Kinds) → AreKinds lexicon.now.g.now kinds →
        IfOk result (IsFirstPrintedOf (texts_of kinds) k (λ head. Contains heads.now head × Contains ways.now.entries (head, way))) }
{
    let mut least = None;
    for head in heads {
        if !is_first_way(ways, head, way) {
            continue;
        }
        let text = print(alloc, lexicon, head.window(k).as_slice())?;
        keep_first(&mut least, *head, text);
    }
    Ok(least)
}

/// Whether this is the first way that has the head.
fn is_first_way(ways: &IndexMap<Head, u16>, head: &Head, way: u16) -> bool
    ensures { (k : ℕ) → AreEntries k ways.now.entries → IsTrue result ↔ Contains ways.now.entries (head.now, way) }
{
    ways.get(head).copied() == Some(way)
}

/// Puts the head with its text in the place of the one that is there, where its text comes first.
fn keep_first(least: &mut Option<(Head, Name)>, head: Head, text: Name)
    ensures { KeepsFirst head text least.old least.new }
{
    if is_before(&text, least) {
        *least = Some((head, text));
    }
}

/// Whether the text comes first, before the one that is there.
fn is_before(text: &Name, least: &Option<(Head, Name)>) -> bool
    ensures { IsTrue result ↔ StandsInFront text.now least.now }
{
    match least {
        Some((_, least)) => text < least,
        None => true,
    }
}
