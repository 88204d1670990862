// What is told of rules.
ghost use Rattle.std.specs.Prelude.{◌≡◌, ◌↔◌, ◌<◌, ◌≤◌, ◌⊎◌, [], ◌∷◌, ℕ, IsTrue, IfOk, map, length};
ghost use Rattle.lw_first.specs.Heads.{kinds_in};
ghost use Rattle.lw_first.specs.Sets.{IsAmongHeads};
ghost use Rattle.lw_viable.specs.BeginsWith.{MeetsKind, TellsEmptyHeads, TellsMetKinds, TellsNodes};
ghost use Rattle.lw_viable.specs.EmptyBy.{IsFlagged};

use lw_base::NoMemory;
use lw_first::heads::{Head, HeadSet};
use lw_grammar::Rule;
use std::alloc::Global;

/// A flag for each rule: whether a call of it is a node of its own.
pub(crate) fn opening_rules(
    alloc: Global,
    rules: &[Rule],
    nodes: &[bool],
) -> Result<Vec<bool>, NoMemory>
    requires { length rules.now ≤ length nodes.now }
    ensures { IfOk result (λ flags. TellsNodes rules.now nodes.now flags.items) }
{
    let mut flags = Vec::with_capacity(alloc, rules.len())?;
    for (number, rule) in rules.iter().enumerate() {
        flags.push(nodes[number] && !rule.is_fragment)?;
    }
    Ok(flags)
}

/// A flag for each rule, by its heads: whether a call of it may read none.
pub(crate) fn empty_rules(alloc: Global, sets: &[HeadSet]) -> Result<Vec<bool>, NoMemory>
    ensures { IfOk result (λ flags. TellsEmptyHeads sets.now flags.items) }
{
    let mut flags = Vec::with_capacity(alloc, sets.len())?;
    for heads in sets {
        flags.push(has_empty_head(heads))?;
    }
    Ok(flags)
}

/// A row for each rule, by its heads: a flag for each of so many kinds, whether it may come next where the rule is called.
pub(crate) fn met_kinds(
    alloc: Global,
    sets: &[HeadSet],
    kinds: usize,
) -> Result<Vec<Vec<bool>>, NoMemory>
    ensures { IfOk result (λ rows. TellsMetKinds sets.now kinds (map (λ row. row.items) rows.items)) }
{
    let mut rows = Vec::with_capacity(alloc, sets.len())?;
    for heads in sets {
        rows.push(met_row(alloc, heads, kinds)?)?;
    }
    Ok(rows)
}

/// The row of one rule: where it may read none, any kind may come next.
fn met_row(alloc: Global, heads: &HeadSet, kinds: usize) -> Result<Vec<bool>, NoMemory>
    ensures { IfOk result (λ row. (k : ℕ) → k < kinds → IsFlagged row.items k ↔ MeetsKind heads.now k) }
{
    let mut row = vec![in alloc; has_empty_head(heads); kinds]?;
    for head in heads.as_slice() {
        meet(&mut row, *head);
    }
    Ok(row)
}

/// Where the head has one kind alone, sets the flag of the kind.
fn meet(row: &mut Vec<bool>, head: Head)
    ensures sized { length row.new.items ≡ length row.old.items }
    ensures meets { (k : ℕ) → k < length row.old.items → IsFlagged row.new.items k ↔ (IsFlagged row.old.items k ⊎ (kinds_in head ≡ k ∷ [])) }
{
    if let Head::One(kind) = head {
        set_flag(row, kind.0 as usize);
    }
}

/// Sets the flag of this number, if there is one.
fn set_flag(flags: &mut Vec<bool>, number: usize)
    ensures sized { length flags.new.items ≡ length flags.old.items }
    ensures sets { (k : ℕ) → k < length flags.old.items → IsFlagged flags.new.items k ↔ (IsFlagged flags.old.items k ⊎ (k ≡ number)) }
{
    if number < flags.len() {
        flags[number] = true;
    }
}

/// Whether one of the heads has no kind.
fn has_empty_head(heads: &HeadSet) -> bool
    ensures { IsTrue result ↔ IsAmongHeads heads.now [] }
{
    heads
        .as_slice()
        .iter()
        .any(|head| matches!(head, Head::Nothing))
}
