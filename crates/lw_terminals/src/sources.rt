// What a set of tokens is made from.
ghost use Rattle.std.specs.Prelude.{◌≡◌, ◌+◌, ◌≤◌, ◌<◌, IfOk, length, map};
ghost use Rattle.lw_kinds.specs.Rows.{AreKindRowOf};
ghost use Rattle.lw_numbers.specs.Tables.{AreNumbersOf};
ghost use Rattle.lw_terminals.specs.WrittenPatterns.{ArePatternsOf};
ghost use Rattle.lw_terminals.specs.Sources.{AreSourcesOf, IsNumberedAs};
ghost use Rattle.lw_terminals.specs.TokenSets.{HasPatterns};

use crate::patterns::{Written, patterns};
use lw_base::{Name, NoMemory, RuleId};
use lw_grammar::{Grammar, Terminal};
use lw_kinds::KindTable;
use lw_matchers::TerminalSource;
use lw_numbers::Numbers;
use std::alloc::Global;

/// What the terminals that are kinds are made from, up to the first whose pattern is long.
#[derive(Drop)]
pub(crate) struct Sources {
    /// In the order of kinds.
    pub terminals: Vec<TerminalSource>,
    /// How long that pattern is, in bytes, if there is one.
    pub long: Option<u32>,
}

/// The keywords, in the order of their kinds.
pub(crate) fn keywords(alloc: Global, kinds: &KindTable) -> Result<Vec<Name>, NoMemory>
    ensures { IfOk result (λ texts. texts.items ≡ map (λ word. word.0) kinds.now.keywords) }
{
    let mut texts = Vec::with_capacity(alloc, kinds.keyword_count())?;
    for k in 0..kinds.keyword_count() {
        texts.push(kinds.keyword_at(k).copy(alloc)?)?;
    }
    Ok(texts)
}

/// The sources of the terminals that are kinds. Their patterns are written first.
pub(crate) fn sources_of(
    alloc: Global,
    g: &Grammar,
    numbers: &Numbers,
    kinds: &KindTable,
) -> Result<Sources, NoMemory>
    requires numbered { AreNumbersOf g.now numbers.now }
    requires kinds { AreKindRowOf g.now kinds.now }
    requires written { HasPatterns g.now }
    ensures { IfOk result (AreSourcesOf g.now kinds.now.terminals) }
{
    let written = patterns(alloc, g, numbers)?;
    short_sources(alloc, g, kinds, written.as_slice())
}

/// The same, where this is said of the patterns of the grammar's terminals.
fn short_sources(
    alloc: Global,
    g: &Grammar,
    kinds: &KindTable,
    written: &[Written],
) -> Result<Sources, NoMemory>
    requires kinds { AreKindRowOf g.now kinds.now }
    requires said { ArePatternsOf g.now written.now }
    requires written { HasPatterns g.now }
    ensures { IfOk result (AreSourcesOf g.now kinds.now.terminals) }
{
    let mut terminals = Vec::with_capacity(alloc, kinds.terminal_count())?;
    for i in 0..kinds.terminal_count() {
        let place = kinds.terminal_at(i);
        match &written[place] {
            Written::Short(pattern) => {
                terminals.push(source(alloc, &g.terminals.as_slice()[place], pattern)?)?;
            }
            Written::Long(bytes) => {
                return Ok(Sources {
                    terminals,
                    long: Some(*bytes),
                });
            }
            Written::Unwritten => unreachable!(),
        }
    }
    Ok(Sources {
        terminals,
        long: None,
    })
}

/// What a terminal with this pattern is made from.
fn source(alloc: Global, terminal: &Terminal, pattern: &Name) -> Result<TerminalSource, NoMemory>
    ensures { IfOk result (λ source. source ≡ record { name = terminal.now.name; pattern = pattern.now; hidden = terminal.now.is_hidden }) }
{
    Ok(TerminalSource {
        name: terminal.name.copy(alloc)?,
        pattern: pattern.copy(alloc)?,
        hidden: terminal.is_hidden,
    })
}

/// The number among rules and terminals of the terminal of this number among those that are kinds.
pub(crate) fn rule_of(g: &Grammar, kinds: &KindTable, number: usize) -> RuleId
    requires kinds { AreKindRowOf g.now kinds.now }
    requires few { length g.now.rules + length g.now.terminals ≤ 65535 }
    requires within { number < length kinds.now.terminals }
    ensures { IsNumberedAs g.now kinds.now.terminals number result }
{
    RuleId((g.rules.len() + kinds.terminal_at(number)) as u16)
}
