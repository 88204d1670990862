// What the references of one document lead to, in the order of what they lead to.
ghost use Rattle.std.specs.Prelude.{◌≡◌, ◌-◌, ◌^◌, ◌<◌, ◌≤◌, ◌↔◌, true, false, not, length, take, drop, Contains, AllPairs, IfOk};
ghost use Rattle.std.specs.List.Sorted.{IsPartitionPoint};
ghost use Rattle.lw_index.specs.declared.refs.uses.Use.{Use};
ghost use Rattle.lw_index.specs.Uses.{AreUses, AreUsesInTurn, UsePrecedes, is_before, is_behind};

use crate::Answer;
use lw_base::NoMemory;
use std::alloc::Global;

/// A node that a reference leads to, and the number of the reference, in the order in which they are compared.
#[derive(Clone, Copy, PartialEq, Eq, PartialOrd, Ord)]
pub(crate) struct Use {
    pub(crate) doc: u32,
    pub(crate) node: u32,
    pub(crate) reference: u32,
}

/// What the references with these answers lead to, in the order of the references.
fn uses_in_turn(alloc: Global, answers: &[Answer]) -> Result<Vec<Use>, NoMemory>
    requires { length answers.now < 2 ^ 32 }
    ensures { IfOk result (λ uses. AreUsesInTurn answers.now uses.items) }
{
    let mut uses = Vec::new(alloc);
    for (place, answer) in answers.iter().enumerate() {
        match answer {
            Answer::Found(target) => uses.push(Use {
                doc: target.doc.0,
                node: target.node.0,
                reference: place as u32,
            })?,
            Answer::Missing => {}
        }
    }
    Ok(uses)
}

/// What the references with these answers lead to, in order. For n references n log n steps.
pub(crate) fn uses_of(alloc: Global, answers: &[Answer]) -> Result<Vec<Use>, NoMemory>
    requires { length answers.now < 2 ^ 32 }
    ensures { IfOk result (λ uses. AreUses answers.now uses.items) }
{
    let mut uses = uses_in_turn(alloc, answers)?;
    uses.sort_unstable();
    Ok(uses)
}

/// Whether the node comes before a certain one.
fn comes_before(found: &Use, doc: u32, node: u32) -> bool
    ensures { result ≡ is_before doc node found.now }
{
    found.doc < doc || (found.doc == doc && found.node < node)
}

/// Whether the node comes behind a certain one.
fn comes_behind(found: &Use, doc: u32, node: u32) -> bool
    ensures { result ≡ is_behind doc node found.now }
{
    doc < found.doc || (doc == found.doc && node < found.node)
}

/// How many come before a node.
fn first_not_before(uses: &[Use], doc: u32, node: u32) -> usize
    requires { AllPairs UsePrecedes uses.now }
    ensures bound { result ≤ length uses.now }
    ensures point { IsPartitionPoint (λ u. is_before doc node u ≡ true) (λ u. is_before doc node u ≡ false) uses.now result }
{
    uses.partition_point(|found| comes_before(found, doc, node))
}

/// How many do not come behind a node.
fn first_behind(uses: &[Use], doc: u32, node: u32) -> usize
    requires { AllPairs UsePrecedes uses.now }
    ensures bound { result ≤ length uses.now }
    ensures point { IsPartitionPoint (λ u. not (is_behind doc node u) ≡ true) (λ u. not (is_behind doc node u) ≡ false) uses.now result }
{
    uses.partition_point(|found| !comes_behind(found, doc, node))
}

/// Those from one place up to another.
fn between(uses: &[Use], start: usize, end: usize) -> &[Use]
    requires order { start ≤ end }
    requires room { end ≤ length uses.now }
    ensures { result.now ≡ take (end - start) (drop start uses.now) }
{
    &uses[start..end]
}

/// Those that lead to a node, in the order of their references. Found by halving.
pub(crate) fn uses_at(uses: &[Use], doc: u32, node: u32) -> &[Use]
    requires { AllPairs UsePrecedes uses.now }
    ensures exact { (u : Use) → Contains result.now u ↔ (Contains uses.now u × (u.doc ≡ doc) × (u.node ≡ node)) }
    ensures ordered { AllPairs UsePrecedes result.now }
{
    let start = first_not_before(uses, doc, node);
    let end = first_behind(uses, doc, node);
    between(uses, start, end)
}

/// Whether one of these leads into a document. Found by halving.
pub(crate) fn leads_into(uses: &[Use], doc: u32) -> bool
    requires { AllPairs UsePrecedes uses.now }
    ensures { (u : Use) → Contains uses.now u → u.doc ≡ doc → result ≡ true }
{
    match uses.get(first_not_before(uses, doc, 0)) {
        Some(found) => found.doc == doc,
        None => false,
    }
}
