// The making of a set of tokens.
ghost use Rattle.std.specs.Prelude.{◌≡◌, ◌+◌, ◌≤◌, IfErr, IfOk, length, map};
ghost use Rattle.lw_kinds.specs.Rows.{AreKindRowOf};
ghost use Rattle.lw_numbers.specs.Tables.{AreNumbersOf};
ghost use Rattle.lw_terminals.specs.Sources.{AreSourcesOf};
ghost use Rattle.lw_terminals.specs.TokenSets.{HasPatterns, HasSoundKinds, IsTokenSetOf, CausesNoTokens, CountsRefused, KeepsLastRefused};

use crate::TermFault;
use crate::limits::check_kinds;
use crate::sources::{Sources, keywords, rule_of, sources_of};
use lw_base::Name;
use lw_grammar::Grammar;
use lw_io::Patterns;
use lw_kinds::KindTable;
use lw_matchers::{MakeTokensFault, TokenSet};
use lw_numbers::Numbers;
use std::alloc::Global;

/// The set of tokens of a grammar with these kinds.
///
/// Numbers are looked at first, then keywords in the order of kinds, then terminals: their patterns are written and made one after
/// the other, and the first that is long, refused, or matches the empty text decides. Where the answer is not `PatternRefused`, the count
/// of refusals and the text last refused are as they were.
pub fn token_set<P: Patterns>(
    alloc: Global,
    g: &Grammar,
    numbers: &Numbers,
    kinds: &KindTable,
    patterns: &mut P,
) -> Result<TokenSet, TermFault>
    requires numbered { AreNumbersOf g.now numbers.now }
    requires kinds { AreKindRowOf g.now kinds.now }
    requires written { HasPatterns g.now }
    requires few { length g.now.rules + length g.now.terminals ≤ 65535 }
    ensures made { IfOk result (IsTokenSetOf g.now (P.listed patterns.old) kinds.now) }
    ensures fault { IfErr result (CausesNoTokens g.now (P.listed patterns.old) kinds.now (P.last_refused patterns.new)) }
    ensures count { CountsRefused (P.count patterns.old) (P.count patterns.new) result }
    ensures last { KeepsLastRefused (P.last_refused patterns.old) (P.last_refused patterns.new) result }
{
    match check_kinds(kinds) {
        Ok(()) => set_of_sound(alloc, g, numbers, kinds, patterns),
        Err(fault) => Err(fault),
    }
}

/// The same, where a language may have these kinds.
fn set_of_sound<P: Patterns>(
    alloc: Global,
    g: &Grammar,
    numbers: &Numbers,
    kinds: &KindTable,
    patterns: &mut P,
) -> Result<TokenSet, TermFault>
    requires numbered { AreNumbersOf g.now numbers.now }
    requires kinds { AreKindRowOf g.now kinds.now }
    requires sound { HasSoundKinds kinds.now }
    requires written { HasPatterns g.now }
    requires few { length g.now.rules + length g.now.terminals ≤ 65535 }
    ensures made { IfOk result (IsTokenSetOf g.now (P.listed patterns.old) kinds.now) }
    ensures fault { IfErr result (CausesNoTokens g.now (P.listed patterns.old) kinds.now (P.last_refused patterns.new)) }
    ensures count { CountsRefused (P.count patterns.old) (P.count patterns.new) result }
    ensures last { KeepsLastRefused (P.last_refused patterns.old) (P.last_refused patterns.new) result }
{
    let keywords = keywords(alloc, kinds)?;
    let sources = sources_of(alloc, g, numbers, kinds)?;
    set_of_sources(alloc, g, kinds, keywords, sources, patterns)
}

/// The same, where the set is made from these. Once patterns are made nothing allocates, so that a refusal is always told.
fn set_of_sources<P: Patterns>(
    alloc: Global,
    g: &Grammar,
    kinds: &KindTable,
    keywords: Vec<Name>,
    sources: Sources,
    patterns: &mut P,
) -> Result<TokenSet, TermFault>
    requires kinds { AreKindRowOf g.now kinds.now }
    requires sound { HasSoundKinds kinds.now }
    requires few { length g.now.rules + length g.now.terminals ≤ 65535 }
    requires keywords { keywords.items ≡ map (λ word. word.0) kinds.now.keywords }
    requires sources { AreSourcesOf g.now kinds.now.terminals sources }
    ensures made { IfOk result (IsTokenSetOf g.now (P.listed patterns.old) kinds.now) }
    ensures fault { IfErr result (CausesNoTokens g.now (P.listed patterns.old) kinds.now (P.last_refused patterns.new)) }
    ensures count { CountsRefused (P.count patterns.old) (P.count patterns.new) result }
    ensures last { KeepsLastRefused (P.last_refused patterns.old) (P.last_refused patterns.new) result }
{
    let Sources { terminals, long } = sources;
    let count = terminals.len();
    match TokenSet::make(alloc, keywords, terminals, patterns) {
        Ok(set) => match long {
            Some(bytes) => Err(TermFault::PatternLong(rule_of(g, kinds, count), bytes)),
            None => Ok(set),
        },
        Err(MakeTokensFault::Refused(i)) => Err(TermFault::PatternRefused(rule_of(g, kinds, i))),
        Err(MakeTokensFault::EmptyMatch(i)) => Err(TermFault::EmptyMatch(rule_of(g, kinds, i))),
        Err(MakeTokensFault::NoMemory) => Err(TermFault::NoMemory),
    }
}
