// Faults of the entry rule and of a grammar's size.
ghost use Rattle.std.specs.Prelude.{ℕ, ◌≡◌, ◌↔◌, IsTrue, MatchOption, OnOk, IfOk, true, count_by, sum_by, min, ◌^◌, ◌-◌};
ghost use Rattle.lw_grammar.specs.declared.rule.Rule.{Rule};
ghost use Rattle.lw_grammar.specs.Leaves.{leaves};
ghost use Rattle.lw_grammar.specs.Named.{IsEntry};
ghost use Rattle.lw_faults.specs.Entries.{NoEntry, SecondEntry, EntryMakesNoNode, TooManyRules, is_act};
ghost use Rattle.lw_numbers.specs.Parts.{leaf_of};
ghost use Rattle.lw_faults.specs.Finding.{Finds, IsFaultOf, OfSome};
ghost use Rattle.lw_gramcheck.specs.Knowing.{Knows};
ghost use Rattle.lw_gramcheck.specs.Parts.{IsMarked, MarkedAgain};

use crate::parts::checker::Checker;
use lw_base::{NoMemory, Span};
use lw_faults::FaultKind;
use lw_faults::findings::Findings;
use lw_grammar::{Grammar, Rule};
use lw_numbers::leaves::{BodyLeaf, body_leaves};
use std::alloc::Global;

/// Where a fault stands that is the whole grammar's.
const NOWHERE: Span = Span { start: 0, end: 0 };

/// How many rules, terminals and actions a grammar may have.
const MOST_RULES: usize = 1024;

/// Fault 1: the root file has no entry rule.
pub(crate) fn find_no_entry(
    alloc: Global,
    g: &Grammar,
    found: &mut Findings,
) -> Result<(), NoMemory>
    ensures { OnOk result (Finds (IsFaultOf 1 (NoEntry g.now)) found.old found.new) }
{
    if entry(g).is_some() {
        return Ok(());
    }
    found.add(alloc, FaultKind::NoEntry, 0, NOWHERE, &g.name)
}

/// Fault 2: a rule of the root file is marked as the entry, and is not the first.
pub(crate) fn find_second_entries(
    alloc: Global,
    g: &Grammar,
    found: &mut Findings,
) -> Result<(), NoMemory>
    ensures { OnOk result (Finds (IsFaultOf 2 (SecondEntry g.now)) found.old found.new) }
{
    match entry(g) {
        Some((first, _)) => find_marked(alloc, &g.rules.as_slice()[first + 1..], found),
        None => Ok(()),
    }
}

/// Fault 3: the entry rule is a fragment or a data type rule.
pub(crate) fn find_entry_without_node(
    alloc: Global,
    checker: &Checker<'_>,
    found: &mut Findings,
) -> Result<(), NoMemory>
    requires { Knows checker.now }
    ensures { OnOk result (Finds (IsFaultOf 3 (EntryMakesNoNode checker.now.g.now)) found.old found.new) }
{
    match entry(checker.g) {
        Some((r, rule)) if rule.is_fragment || checker.is_data_type(r, rule) => {
            found.add(
                alloc,
                FaultKind::EntryWithoutNode,
                rule.file,
                rule.span,
                &rule.name,
            )
        }
        _ => Ok(()),
    }
}

/// Fault 23: rules, terminals and actions number more than 1,024.
pub(crate) fn find_too_many_rules(
    alloc: Global,
    g: &Grammar,
    found: &mut Findings,
) -> Result<(), NoMemory>
    ensures { OnOk result (Finds (IsFaultOf 23 (TooManyRules g.now)) found.old found.new) }
{
    let actions = actions_of(alloc, g.rules.as_slice())?;
    let count = g.rules.len().saturating_add(g.terminals.len());
    if count.saturating_add(actions) <= MOST_RULES {
        return Ok(());
    }
    found.add(alloc, FaultKind::TooManyRules, 0, NOWHERE, &g.name)
}

/// How many actions these rules write, as far as a `usize` counts.
fn actions_of(alloc: Global, rules: &[Rule]) -> Result<usize, NoMemory>
    ensures { IfOk result (λ n. n ≡ min (sum_by (λ rule. count_by is_act (leaves rule.body)) rules.now) (2 ^ 64 - 1)) }
{
    let mut actions = 0usize;
    for rule in rules {
        let leaves = body_leaves(alloc, &rule.body)?;
        actions = actions.saturating_add(action_leaves(leaves.as_slice()));
    }
    Ok(actions)
}

/// How many of these are actions.
fn action_leaves(leaves: &[BodyLeaf<'_>]) -> usize
    ensures { result ≡ count_by (λ leaf. is_act (leaf_of leaf)) leaves.now }
{
    leaves.iter().filter(|leaf| is_action(leaf)).count()
}

fn is_action(leaf: &BodyLeaf<'_>) -> bool
    ensures { result ≡ is_act (leaf_of leaf.now) }
{
    match leaf {
        BodyLeaf::Act(_) => true,
        BodyLeaf::Keyword(..) | BodyLeaf::Call(..) | BodyLeaf::Assign(..) => false,
    }
}

/// The entry rule, with its number: the first rule of the root file that is marked as one.
fn entry(g: &Grammar) -> Option<(usize, &Rule)>
    ensures { MatchOption result ((r : ℕ) (rule : Rule) → ¬ IsEntry g.now r rule) (λ at. IsEntry g.now at.0 at.1.now) }
{
    for (r, rule) in g.rules.as_slice().iter().enumerate() {
        if is_marked(rule) {
            return Some((r, rule));
        }
    }
    None
}

/// Whether the rule is marked as the entry of the root file.
fn is_marked(rule: &Rule) -> bool
    ensures { IsTrue result ↔ IsMarked rule.now }
{
    rule.is_entry && rule.file == 0
}

/// Finds each of these that is marked as the entry.
fn find_marked(alloc: Global, rules: &[Rule], found: &mut Findings) -> Result<(), NoMemory>
    ensures { OnOk result (Finds (OfSome MarkedAgain rules.now) found.old found.new) }
{
    for rule in rules {
        find_mark(alloc, rule, found)?;
    }
    Ok(())
}

fn find_mark(alloc: Global, rule: &Rule, found: &mut Findings) -> Result<(), NoMemory>
    ensures { OnOk result (Finds (MarkedAgain rule.now) found.old found.new) }
{
    if !is_marked(rule) {
        return Ok(());
    }
    found.add(
        alloc,
        FaultKind::SecondEntry,
        rule.file,
        rule.span,
        &rule.name,
    )
}
