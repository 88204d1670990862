// Which rules make nodes.
ghost use Rattle.std.specs.Prelude.{◌≡◌, ◌<◌, ℕ, Contains, IfOk, OnOk, Some, length, slice_get, map};
ghost use Rattle.lw_grammar.specs.Leaves.{leaves};
ghost use Rattle.lw_graph.specs.Walks.{HasNode};
ghost use Rattle.lw_numbers.specs.Parts.{leaf_of};
ghost use Rattle.lw_numbers.specs.Tables.{AreNumbersOf};
ghost use Rattle.lw_numbers.specs.Kinship.{AreNodeRules};
ghost use Rattle.lw_numbers.specs.Makers.{AreMakers, PutsLeaf, PutsLeaves, Shows};

use crate::Numbers;
use crate::leaves::{BodyLeaf, body_leaves};
use crate::subtypes::called::called_rule;
use lw_base::NoMemory;
use lw_grammar::{Grammar, Rule};
use lw_graph::{Graph, NodeSet};
use std::alloc::Global;

/// A flag for each rule: whether it makes nodes. It takes expected linear time in the grammar.
pub fn node_rules(alloc: Global, g: &Grammar, numbers: &Numbers) -> Result<Vec<bool>, NoMemory>
    requires { AreNumbersOf g.now numbers.now }
    ensures { IfOk result (λ flags. AreNodeRules g.now flags.items) }
{
    let makers = Makers::of(alloc, g, numbers)?;
    let met = makers.callers.reached(alloc, makers.starts.as_slice())?;
    flags(alloc, &met, g.rules.len())
}

/// Whether each of the first so many nodes is in the set.
fn flags(alloc: Global, met: &NodeSet, count: usize) -> Result<Vec<bool>, NoMemory>
    ensures { IfOk result (λ flags. Shows met.now count flags.items) }
{
    let mut flags = Vec::with_capacity(alloc, count)?;
    for node in 0..count {
        flags.push(met.holds(node))?;
    }
    Ok(flags)
}

/// What makes a rule make nodes.
pub(crate) struct Makers {
    /// The rules by number, with an edge from each that is called to the one that calls it.
    pub(crate) callers: Graph,
    /// The rules in whose bodies an assignment or an action stands, maybe more than once each.
    pub(crate) starts: Vec<usize>,
}

impl Drop for Makers {
    // In one place, so that whoever drops such a value sees one call and not the drops of all its parts.
    fn drop(self) {
        let Makers {
            callers: _,
            starts: _,
        } = self;
    }
}

impl Makers {
    /// Those of a grammar.
    fn of(alloc: Global, g: &Grammar, numbers: &Numbers) -> Result<Makers, NoMemory>
        requires { AreNumbersOf g.now numbers.now }
        ensures { IfOk result (AreMakers g.now) }
    {
        let mut makers = Makers {
            callers: Graph::new(alloc, g.rules.len())?,
            starts: Vec::new(alloc),
        };
        for (number, rule) in g.rules.as_slice().iter().enumerate() {
            let found = body_leaves(alloc, &rule.body)?;
            makers.put_leaves(g, numbers, number, found.as_slice())?;
        }
        Ok(makers)
    }

    /// Puts in the leaves of the body of this rule.
    fn put_leaves(
        &mut self,
        g: &Grammar,
        numbers: &Numbers,
        rule: usize,
        found: &[BodyLeaf<'_>],
    ) -> Result<(), NoMemory>
        requires numbers { AreNumbersOf g.now numbers.now }
        requires nodes { self.old.callers.nodes ≡ length g.now.rules }
        requires rule { rule < length g.now.rules }
        ensures { OnOk result (PutsLeaves g.now rule (map leaf_of found.now) self.old self.new) }
    {
        for leaf in found {
            self.put_leaf(g, numbers, rule, leaf)?;
        }
        Ok(())
    }

    fn put_leaf(
        &mut self,
        g: &Grammar,
        numbers: &Numbers,
        rule: usize,
        leaf: &BodyLeaf<'_>,
    ) -> Result<(), NoMemory>
        requires numbers { AreNumbersOf g.now numbers.now }
        requires nodes { self.old.callers.nodes ≡ length g.now.rules }
        requires rule { rule < length g.now.rules }
        ensures { OnOk result (PutsLeaf g.now rule (leaf_of leaf.now) self.old self.new) }
    {
        match *leaf {
            BodyLeaf::Assign(..) | BodyLeaf::Act(_) => self.starts.push(rule)?,
            BodyLeaf::Call(name, _) => {
                if let Some((called, _)) = called_rule(g, numbers, name) {
                    self.callers.add(called, rule)?;
                }
            }
            BodyLeaf::Keyword(..) => {}
        }
        Ok(())
    }
}
