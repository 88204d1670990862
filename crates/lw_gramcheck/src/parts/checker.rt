// A grammar with what is known of it.
ghost use Rattle.std.specs.Prelude.{◌≡◌, ◌↔◌, IsTrue, Some, slice_get};
ghost use Rattle.lw_grammar.specs.Nodes.{MakesNodes, IsDataType};
ghost use Rattle.lw_numbers.specs.Numbering.{Means};
ghost use Rattle.lw_gramcheck.specs.Knowing.{Knows};

use lw_base::Name;
use lw_grammar::{Grammar, Rule};
use lw_numbers::name_rules::NameRules;
use lw_numbers::{Called, Numbers};

/// A grammar, with what was found of its names and rules.
#[derive(Clone, Copy, Drop)]
pub struct Checker<'g> {
    pub g: &'g Grammar,
    pub numbers: &'g Numbers,
    /// For each rule: whether it makes nodes.
    pub nodes: &'g [bool],
    pub name_rules: &'g NameRules,
}

impl<'g> Checker<'g> {
    /// What the name means.
    pub(crate) fn called(&self, name: &Name) -> Called<'g>
        requires { Knows self.now }
        ensures { Means self.now.g.now name.now result }
    {
        self.numbers.called(self.g, name)
    }

    /// Whether the rule of this number makes nodes.
    pub(crate) fn makes_nodes(&self, r: usize, rule: &Rule) -> bool
        requires knows { Knows self.now }
        requires rule { slice_get self.now.g.now.rules r ≡ Some rule.now }
        ensures { IsTrue result ↔ MakesNodes self.now.g.now rule.now }
    {
        self.nodes[r]
    }

    /// Whether the rule of this number is a data type rule.
    pub(crate) fn is_data_type(&self, r: usize, rule: &Rule) -> bool
        requires knows { Knows self.now }
        requires rule { slice_get self.now.g.now.rules r ≡ Some rule.now }
        ensures { IsTrue result ↔ IsDataType self.now.g.now rule.now }
    {
        !rule.is_fragment && !self.makes_nodes(r, rule)
    }
}
