// The first name that a rule's body gives, fragments put in.
ghost use Rattle.std.specs.Prelude.{ℕ, ◌≡◌, ◌≤◌, List, ◌∷◌, ◌++◌, Option, OnOk, IfOk, MatchOption};
ghost use Rattle.lw_grammar.specs.Leaves.{IsFragmentCall, leaves};
ghost use Rattle.lw_grammar.specs.NameRules.{Names};
ghost use Rattle.lw_numbers.specs.Parts.{leaf_of};
ghost use Rattle.lw_numbers.specs.Tables.{AreNumbersOf};
ghost use Rattle.lw_numbers.specs.NameTable.{NamesBy};
ghost use Rattle.lw_numbers.specs.Searching.{CallsNoFragment, FindsName, NamesNone, ahead, work_left};

use crate::leaves::{BodyLeaf, body_leaves};
use crate::{Called, Numbers};
use indexmap::IndexSet;
use lw_base::{Name, NoMemory};
use lw_grammar::{Element, Grammar, Op, Rule, Value0};
use std::alloc::Global;

/// A search for the first name that a rule's body gives.
struct Search<'g> {
    /// The numbers of the fragments that it has looked into.
    seen: IndexSet<usize>,
    /// The leaves that it has ahead, the next one last.
    waiting: Vec<BodyLeaf<'g>>,
}

impl Drop for Search<'_> {
    // In one place, so that whoever drops such a value sees one call and not the drops of all its parts.
    fn drop(self) {
        let Search {
            seen: _,
            waiting: _,
        } = self;
    }
}

impl<'g> Search<'g> {
    /// PutsNames the leaves of a body before those that are ahead.
    fn look_into(&mut self, alloc: Global, body: &'g Element) -> Result<(), NoMemory>
        ensures ahead { OnOk result (ahead self.new ≡ leaves body.now ++ ahead self.old) }
        ensures seen { OnOk result (self.new.seen.keys ≡ self.old.seen.keys) }
    {
        let mut found = body_leaves(alloc, body)?;
        found.reverse();
        self.waiting.extend_from_slice(found.as_slice())?;
        Ok(())
    }

    /// Goes past a leaf that gives no name. Where it calls a fragment that was not looked into, the
    /// leaves of that come next.
    fn go_past(
        &mut self,
        alloc: Global,
        g: &'g Grammar,
        numbers: &Numbers,
        leaf: BodyLeaf<'g>,
    ) -> Result<(), NoMemory>
        requires numbered { AreNumbersOf g.now numbers.now }
        requires nameless { NamesNone (leaf_of leaf) }
        ensures finds { OnOk result ((found : Option (List ℕ)) → FindsName g.now self.new.seen.keys (ahead self.new) found →
            FindsName g.now self.old.seen.keys (leaf_of leaf.entry ∷ ahead self.old) found) }
        ensures nearer { OnOk result (work_left g.now self.new ≤ work_left g.now self.old) }
    {
        let Some((number, rule)) = fragment_called(g, numbers, leaf) else {
            return Ok(());
        };
        if self.seen.insert(number)? {
            self.look_into(alloc, &rule.body)?;
        }
        Ok(())
    }
}

/// The name that a leaf `name=` calls.
fn name_called<'g>(leaf: BodyLeaf<'g>) -> Option<&'g Name>
    ensures { MatchOption result (NamesNone (leaf_of leaf.entry)) (λ called. Names (leaf_of leaf.entry) called.now) }
{
    let BodyLeaf::Assign(property, Op::One, value, _) = leaf else {
        return None;
    };
    if property.text() != "name" {
        return None;
    }
    match value {
        Value0::Call(called, _) => Some(called),
        Value0::Keyword(..) | Value0::Cross(..) | Value0::Choice(..) => None,
    }
}

/// The fragment that a leaf calls, with its number.
fn fragment_called<'g>(
    g: &'g Grammar,
    numbers: &Numbers,
    leaf: BodyLeaf<'g>,
) -> Option<(usize, &'g Rule)>
    requires { AreNumbersOf g.now numbers.now }
    ensures { MatchOption result (CallsNoFragment g.now (leaf_of leaf.entry)) (λ called. IsFragmentCall g.now (leaf_of leaf.entry) called.0 called.1.now) }
{
    let BodyLeaf::Call(name, _) = leaf else {
        return None;
    };
    match numbers.called(g, name) {
        Called::Rule(number, rule) => {
            if rule.is_fragment {
                Some((number, rule))
            } else {
                None
            }
        }
        Called::Terminal(..) => None,
        Called::Nothing => None,
    }
}

/// The name that the first `name=` of a rule calls, fragments put in. Each fragment is looked into once.
pub(crate) fn first_name<'g>(
    alloc: Global,
    g: &'g Grammar,
    numbers: &Numbers,
    rule: &'g Rule,
) -> Result<Option<&'g Name>, NoMemory>
    requires { AreNumbersOf g.now numbers.now }
    ensures { IfOk result (λ found. MatchOption found ((called : List ℕ) → ¬ NamesBy g.now rule.now called) (λ called. NamesBy g.now rule.now called.now)) }
{
    let mut search = Search {
        seen: IndexSet::new(alloc),
        waiting: Vec::new(alloc),
    };
    search.look_into(alloc, &rule.body)?;
    while let Some(leaf) = search.waiting.pop() {
        if let Some(called) = name_called(leaf) {
            return Ok(Some(called));
        }
        search.go_past(alloc, g, numbers, leaf)?;
    }
    Ok(None)
}
