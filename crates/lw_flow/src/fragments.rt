// What fragments may do.
ghost use Rattle.std.specs.Prelude.{◌≡◌, ◌<◌, ◌≤◌, false, ℕ, IfOk, OnOk, length};
ghost use Rattle.lw_numbers.specs.Tables.{AreNumbersOf};
ghost use Rattle.lw_numbers.specs.Kinship.{AreNodeRules};
ghost use Rattle.lw_flow.specs.Fixed.{IsSound, IsClosed, Widens, WidensBelow};
ghost use Rattle.lw_flow.specs.Rows.{InTable, TakesRoom, room};

use crate::callee::Source;
use crate::doing::effects_of;
use crate::effect::Effect;
use crate::tables::{empty_rows, widen_row};
use indexmap::IndexSet;
use lw_base::NoMemory;
use std::alloc::Global;

/// What each fragment may do: a set for each rule, which is used of fragments alone.
pub(crate) fn fragment_effects(
    alloc: Global,
    source: &Source,
) -> Result<Vec<IndexSet<Effect>>, NoMemory>
    requires numbers { AreNumbersOf source.now.grammar.now source.now.numbers.now }
    requires nodes { AreNodeRules source.now.grammar.now source.now.nodes.now }
    ensures sized { IfOk result (λ table. length table.items ≡ length source.now.grammar.now.rules) }
    ensures sound { IfOk result (λ table. IsSound source.now.grammar.now (InTable table.items)) }
    ensures closed { IfOk result (λ table. IsClosed source.now.grammar.now (InTable table.items)) }
{
    let mut table: Vec<IndexSet<Effect>> = empty_rows(alloc, source.grammar.rules.len())?;
    'rounds: loop {
        widen_back(alloc, source, &mut table)?;
        if !widen_all(alloc, source, &mut table)? {
            return Ok(table);
        }
    }
}

/// Puts what each fragment may do into the table, from the last to the first.
fn widen_back(
    alloc: Global,
    source: &Source,
    table: &mut Vec<IndexSet<Effect>>,
) -> Result<(), NoMemory>
    requires numbers { AreNumbersOf source.now.grammar.now source.now.numbers.now }
    requires nodes { AreNodeRules source.now.grammar.now source.now.nodes.now }
    requires sized { length table.old.items ≡ length source.now.grammar.now.rules }
    ensures length { OnOk result (length table.new.items ≡ length table.old.items) }
    ensures sound { OnOk result (IsSound source.now.grammar.now (InTable table.old.items) → IsSound source.now.grammar.now (InTable table.new.items)) }
    ensures room { OnOk result (room table.new.items ≤ room table.old.items) }
{
    for number in (0..source.grammar.rules.len()).rev() {
        widen(alloc, source, table, number)?;
    }
    Ok(())
}

/// Puts what each fragment may do into the table, and says whether something is new.
fn widen_all(
    alloc: Global,
    source: &Source,
    table: &mut Vec<IndexSet<Effect>>,
) -> Result<bool, NoMemory>
    requires numbers { AreNumbersOf source.now.grammar.now source.now.numbers.now }
    requires nodes { AreNodeRules source.now.grammar.now source.now.nodes.now }
    requires sized { length table.old.items ≡ length source.now.grammar.now.rules }
    ensures length { OnOk result (length table.new.items ≡ length table.old.items) }
    ensures widens { IfOk result (λ grown. WidensBelow source.now.grammar.now (length source.now.grammar.now.rules) grown (InTable table.old.items) (InTable table.new.items)) }
    ensures room { IfOk result (λ grown. TakesRoom grown (room table.old.items) (room table.new.items)) }
{
    let mut grown = false;
    for number in 0..source.grammar.rules.len() {
        if widen(alloc, source, table, number)? {
            grown = true;
        }
    }
    Ok(grown)
}

/// Puts what the fragment of this number may do into the table, and says whether something is new.
fn widen(
    alloc: Global,
    source: &Source,
    table: &mut Vec<IndexSet<Effect>>,
    number: usize,
) -> Result<bool, NoMemory>
    requires numbers { AreNumbersOf source.now.grammar.now source.now.numbers.now }
    requires nodes { AreNodeRules source.now.grammar.now source.now.nodes.now }
    requires sized { length table.old.items ≡ length source.now.grammar.now.rules }
    requires within { number < length source.now.grammar.now.rules }
    ensures length { OnOk result (length table.new.items ≡ length table.old.items) }
    ensures widens { IfOk result (λ grown. Widens source.now.grammar.now number grown (InTable table.old.items) (InTable table.new.items)) }
    ensures room { IfOk result (λ grown. TakesRoom grown (room table.old.items) (room table.new.items)) }
{
    let rule = &source.grammar.rules.as_slice()[number];
    if !rule.is_fragment {
        return Ok(false);
    }
    let found = effects_of(alloc, source, table.as_slice(), &rule.body)?;
    widen_row(table, number, found.as_slice())
}
