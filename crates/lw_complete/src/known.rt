// What is known of the cross-references that may come next.
ghost use Rattle.std.specs.Prelude.{ℕ, ◌≡◌, ◌≤◌, ◌+◌, ◌++◌, List, Some, All, IfOk, OnOk, length, map};
ghost use Rattle.lw_base.specs.declared.limits.TheConstants.{LONGEST_DOCUMENT};
ghost use Rattle.lw_faults.specs.Finding.{Finds, OfSome};
ghost use Rattle.lw_grammar.specs.Kinds.{Kinds};
ghost use Rattle.lw_places.specs.Starting.{ReferenceNext};
ghost use Rattle.lw_program.specs.Says.{Task};
ghost use Rattle.lw_scoping.specs.Links.{Trees};
ghost use Rattle.lw_tokens.specs.Lexicon.{Lexicon};
ghost use Rattle.lw_complete.specs.Starts.{AreBlankNames, IsBlankIfCut, IsBlankKnown, IsNameFoundAt, IsKnownStart, IsParsedBy, IsSoundStart, IsStartNext, StandsBehind, names_in};
ghost use Rattle.lw_complete.specs.Typing.{IsTypedAmong, IsTypedBy};

use crate::blanks::blank;
use crate::sorted::SortedNames;
use crate::starting::{Blank, FrontNames, blank_names, front_names};
use crate::typing::Typing;
use lw_base::{Name, NoMemory};
use lw_parse::Parser;
use lw_viable::ReferenceStart;
use std::alloc::Global;

/// A cross-reference that may come next, the names by which it would lead somewhere in the tree of what was read before it, and those by which
/// it would in the tree of the whole text with it left blank, where there is one.
#[derive(Drop)]
pub(crate) struct Known<'s> {
    pub(crate) start: &'s ReferenceStart,
    pub(crate) front: FrontNames,
    pub(crate) blank: Option<SortedNames>,
}

/// What is known of these starts. Puts in all names by which one of them would lead somewhere.
pub(crate) fn known_starts<'s>(
    alloc: Global,
    typing: &Typing<'_>,
    parser: &Parser,
    starts: &'s [ReferenceStart],
    found: &mut Vec<Name>,
) -> Result<Vec<Known<'s>>, NoMemory>
    requires short { length typing.now.front.now + length typing.now.rest.now ≤ LONGEST_DOCUMENT }
    requires known { (of : Kinds) × (lexicon : Lexicon) × (tasks : List Task) × IsTypedBy of lexicon typing.now × IsParsedBy of tasks typing.now parser.now
        × All (IsStartNext of tasks typing.now) starts.now }
    ensures starts { IfOk result (λ known. map (λ one. one.start.now) known.items ≡ starts.now) }
    ensures known { (of : Kinds) (lexicon : Lexicon) (trees : Trees) (address : List ℕ) → IsTypedBy of lexicon typing.now →
        IsTypedAmong typing.now trees address → IfOk result (λ known. All (IsKnownStart of typing.now trees address) known.items) }
    ensures blank { (of : Kinds) (lexicon : Lexicon) (tasks : List Task) (trees : Trees) (address : List ℕ) → IsTypedBy of lexicon typing.now →
        IsParsedBy of tasks typing.now parser.now → All (IsStartNext of tasks typing.now) starts.now → IsTypedAmong typing.now trees address →
        IfOk result (λ known. All (IsBlankKnown of lexicon tasks typing.now trees address) known.items) }
    ensures found { (of : Kinds) (lexicon : Lexicon) (tasks : List Task) (trees : Trees) (address : List ℕ) → IsTypedBy of lexicon typing.now →
        IsParsedBy of tasks typing.now parser.now → All (IsStartNext of tasks typing.now) starts.now → IsTypedAmong typing.now trees address →
        OnOk result (Finds (OfSome (IsNameFoundAt of lexicon tasks typing.now trees address) starts.now) found.old.items found.new.items) }
{
    let made = blank(alloc, typing)?;
    let blank = &made;
    let mut known = Vec::new(alloc);
    'starts: for start in starts {
        let one = known_start(alloc, typing, parser, start, blank)?;
        put_names(alloc, &one, found)?;
        known.push(one)?;
    }
    Ok(known)
}

/// What is known of this start.
fn known_start<'s>(
    alloc: Global,
    typing: &Typing<'_>,
    parser: &Parser,
    start: &'s ReferenceStart,
    blank: &Option<Blank>,
) -> Result<Known<'s>, NoMemory>
    requires known { (of : Kinds) × (lexicon : Lexicon) × (tasks : List Task) × IsTypedBy of lexicon typing.now × IsParsedBy of tasks typing.now parser.now
        × IsStartNext of tasks typing.now start.now
        × IsBlankIfCut typing.now lexicon blank.now }
    ensures start { IfOk result (λ known. known.start.now ≡ start.now) }
    ensures known { (of : Kinds) (lexicon : Lexicon) (trees : Trees) (address : List ℕ) → IsTypedBy of lexicon typing.now →
        IsTypedAmong typing.now trees address → IfOk result (IsKnownStart of typing.now trees address) }
    ensures blank { (of : Kinds) (lexicon : Lexicon) (tasks : List Task) (trees : Trees) (address : List ℕ) → IsTypedBy of lexicon typing.now →
        IsParsedBy of tasks typing.now parser.now → IsStartNext of tasks typing.now start.now →
        IsBlankIfCut typing.now lexicon blank.now →
        IsTypedAmong typing.now trees address →
        IfOk result (IsBlankKnown of lexicon tasks typing.now trees address) }
{
    let front = front_names(alloc, typing, start)?;
    let blank = names_left_blank(alloc, typing, parser, start, front.before, blank)?;
    Ok(Known {
        start,
        front,
        blank,
    })
}

/// The names by which this start would lead somewhere in the tree of the text with the reference left blank, where there is one.
fn names_left_blank(
    alloc: Global,
    typing: &Typing<'_>,
    parser: &Parser,
    start: &ReferenceStart,
    before: usize,
    blank: &Option<Blank>,
) -> Result<Option<SortedNames>, NoMemory>
    requires { (of : Kinds) × (lexicon : Lexicon) × (tasks : List Task) × (next : ReferenceNext) × IsTypedBy of lexicon typing.now
        × IsBlankIfCut typing.now lexicon blank.now
        × IsParsedBy of tasks typing.now parser.now × IsSoundStart of tasks typing.now next start.now × StandsBehind of typing.now next before }
    ensures { (of : Kinds) (lexicon : Lexicon) (tasks : List Task) (next : ReferenceNext) (trees : Trees) (address : List ℕ) → IsTypedBy of lexicon typing.now →
        IsBlankIfCut typing.now lexicon blank.now →
        IsParsedBy of tasks typing.now parser.now → IsSoundStart of tasks typing.now next start.now → StandsBehind of typing.now next before →
        IsTypedAmong typing.now trees address →
        IfOk result (AreBlankNames of lexicon tasks typing.now trees address next start.now) }
{
    match blank {
        None => Ok(None),
        Some(blank) => blank_names(alloc, typing, parser, start, before, blank),
    }
}

/// Puts in the names by which a start would lead somewhere in the one tree or the other.
fn put_names(alloc: Global, known: &Known<'_>, found: &mut Vec<Name>) -> Result<(), NoMemory>
    ensures { OnOk result (found.new.items ≡ found.old.items ++ known.now.front.names ++ names_in known.now.blank) }
{
    put_copies(alloc, found, known.front.names.as_slice())?;
    match &known.blank {
        None => Ok(()),
        Some(names) => put_copies(alloc, found, names.as_slice()),
    }
}

fn put_copies(alloc: Global, names: &mut Vec<Name>, others: &[Name]) -> Result<(), NoMemory>
    ensures { OnOk result (names.new.items ≡ names.old.items ++ others.now) }
{
    for name in others {
        names.push(name.copy(alloc)?)?;
    }
    Ok(())
}
