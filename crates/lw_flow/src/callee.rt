// A grammar with what is known of its names and rules, and what a call in it does.
ghost use Rattle.std.specs.Prelude.{◌≡◌, ◌↔◌, ℕ, List, IsTrue, Some, slice_get};
ghost use Rattle.std.specs.Option.{option_copied};
ghost use Rattle.lw_grammar.specs.declared.rule.Rule.{Rule};
ghost use Rattle.lw_grammar.specs.Named.{IsRule};
ghost use Rattle.lw_grammar.specs.Nodes.{MakesNodes};
ghost use Rattle.lw_numbers.specs.Tables.{AreNumbersOf};
ghost use Rattle.lw_numbers.specs.Kinship.{AreNodeRules};
ghost use Rattle.lw_flow.specs.Callees.{IsCallee};
ghost use Rattle.lw_flow.specs.Effects.{type_number, own_number, result_name};

use crate::effect::Effect;
use lw_base::Name;
use lw_grammar::{Grammar, Rule, RuleResult};
use lw_numbers::{Called, Numbers};

/// A grammar with the numbers of its names, and which of its rules make nodes.
#[derive(Drop)]
pub(crate) struct Source<'g> {
    pub grammar: &'g Grammar,
    pub numbers: &'g Numbers,
    pub nodes: &'g [bool],
}

/// What a call in a body does.
#[derive(Drop)]
pub(crate) enum Callee {
    /// The body of the fragment of this number stands there.
    Fragment(usize),
    /// It is a step.
    Step(Effect),
}

/// The name of the type of the rule's nodes.
fn result_name(rule: &Rule) -> Option<&Name>
    ensures { option_copied result ≡ result_name rule.now.name rule.now.result }
{
    match &rule.result {
        RuleResult::Own => Some(&rule.name),
        RuleResult::Returns(name, _) | RuleResult::Infers(name, _) => Some(name),
        RuleResult::Gives(_) => None,
    }
}

impl Source<'_> {
    /// The number of the type of this name.
    pub fn number_of(&self, name: &Name) -> Option<u16>
        requires { AreNumbersOf self.now.grammar.now self.now.numbers.now }
        ensures { result ≡ type_number self.now.grammar.now name.now }
    {
        self.numbers.type_of(name).map(|id| id.0)
    }

    /// The number of the type of the rule's nodes.
    pub fn own_number(&self, rule: &Rule) -> Option<u16>
        requires { AreNumbersOf self.now.grammar.now self.now.numbers.now }
        ensures { result ≡ own_number self.now.grammar.now rule.now }
    {
        match result_name(rule) {
            Some(name) => self.number_of(name),
            None => None,
        }
    }

    /// Whether the rule of this number makes nodes.
    fn makes_nodes(&self, number: usize) -> bool
        requires { AreNodeRules self.now.grammar.now self.now.nodes.now }
        ensures { (rule : Rule) → slice_get self.now.grammar.now.rules number ≡ Some rule → IsTrue result ↔ MakesNodes self.now.grammar.now rule }
    {
        match self.nodes.get(number) {
            Some(flag) => *flag,
            None => false,
        }
    }

    /// What a call of the rule of this number does.
    fn rule_callee(&self, number: usize, rule: &Rule) -> Callee
        requires numbers { AreNumbersOf self.now.grammar.now self.now.numbers.now }
        requires nodes { AreNodeRules self.now.grammar.now self.now.nodes.now }
        ensures { (name : List ℕ) → IsRule self.now.grammar.now name number rule.now → IsCallee self.now.grammar.now name result }
    {
        if rule.is_fragment {
            return Callee::Fragment(number);
        }
        if self.makes_nodes(number) {
            return Callee::Step(Effect::Calls(self.own_number(rule)));
        }
        Callee::Step(Effect::Reads)
    }

    /// What a call of this name does.
    pub fn callee(&self, name: &Name) -> Callee
        requires numbers { AreNumbersOf self.now.grammar.now self.now.numbers.now }
        requires nodes { AreNodeRules self.now.grammar.now self.now.nodes.now }
        ensures { IsCallee self.now.grammar.now name.now result }
    {
        match self.numbers.called(self.grammar, name) {
            Called::Rule(number, rule) => self.rule_callee(number, rule),
            Called::Terminal(..) => Callee::Step(Effect::Reads),
            Called::Nothing => Callee::Step(Effect::Reads),
        }
    }
}
