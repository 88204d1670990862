// What the names of a grammar mean.
ghost use Rattle.std.specs.Prelude.{ℕ, List, MatchOption};
ghost use Rattle.lw_grammar.specs.declared.rule.Rule.{Rule};
ghost use Rattle.lw_grammar.specs.Named.{IsRule};
ghost use Rattle.lw_faults.specs.Reads.{IsTokenCall};
ghost use Rattle.lw_kinds.specs.Crossing.{IsReadBy};
ghost use Rattle.lw_kinds.specs.Known.{AreKnown};

use lw_base::Name;
use lw_grammar::Grammar;
use lw_numbers::name_rules::NameRules;
use lw_numbers::{Called, Numbers};

/// A grammar, and what is known of its names.
#[derive(Clone, Copy)]
pub(crate) struct Names<'g> {
    pub(crate) g: &'g Grammar,
    pub(crate) numbers: &'g Numbers,
    pub(crate) name_rules: &'g NameRules,
}

impl Names<'_> {
    /// The number of the rule that the name means.
    pub(crate) fn rule(&self, name: &Name) -> Option<usize>
        requires { AreKnown self.now }
        ensures { MatchOption result (IsTokenCall self.now.g.now name.now) (λ r. (rule : Rule) × IsRule self.now.g.now name.now r rule) }
    {
        match self.numbers.called(self.g, name) {
            Called::Rule(number, _) => Some(number),
            Called::Terminal(..) => None,
            Called::Nothing => None,
        }
    }

    /// The rule or terminal that reads a cross-reference to this type, where this rule is written or none.
    pub(crate) fn read_by<'a>(&'a self, wanted: &Name, rule: &'a Option<Name>) -> Option<&'a Name>
        requires { AreKnown self.now }
        ensures { MatchOption result ((name : List ℕ) → ¬ IsReadBy self.now.g.now wanted.now rule.now name)
            (λ name. IsReadBy self.now.g.now wanted.now rule.now name.now) }
    {
        match rule {
            Some(name) => Some(name),
            None => self.name_rules.rule_of(wanted),
        }
    }
}
