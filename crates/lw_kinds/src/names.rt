// What the names of a grammar mean.
ghost use Rattle.std.specs.Prelude.{ℕ, List, MatchOption};
ghost use Rattle.lw_grammar.specs.declared.terminal.Terminal.{Terminal};
ghost use Rattle.lw_grammar.specs.Named.{IsTerminal};
ghost use Rattle.lw_numbers.specs.Tables.{AreNumbersOf};
ghost use Rattle.lw_kinds.specs.Crossing.{IsReadBy};
ghost use Rattle.lw_kinds.specs.Gathering.{AreNamesKnown};

use lw_base::Name;
use lw_grammar::Grammar;
use lw_numbers::name_rules::NameRules;
use lw_numbers::{Called, Numbers};

/// A grammar, and what is known of its names.
#[derive(Clone, Copy)]
pub(crate) struct Names<'g> {
    pub(crate) g: &'g Grammar,
    pub(crate) numbers: &'g Numbers,
    pub(crate) name_rules: &'g NameRules,
}

/// The place of the terminal that the name means.
pub(crate) fn terminal_place(g: &Grammar, numbers: &Numbers, name: &Name) -> Option<usize>
    requires { AreNumbersOf g.now numbers.now }
    ensures { MatchOption result ((t : ℕ) (terminal : Terminal) → ¬ IsTerminal g.now name.now t terminal) (λ t. (terminal : Terminal) × IsTerminal g.now name.now t terminal) }
{
    match numbers.called(g, name) {
        Called::Rule(..) => None,
        Called::Terminal(place, _) => Some(place),
        Called::Nothing => None,
    }
}

impl Names<'_> {
    /// The rule or terminal that reads a cross-reference to this type, where this rule is written or none.
    pub(crate) fn read_by<'a>(&'a self, wanted: &Name, rule: &'a Option<Name>) -> Option<&'a Name>
        requires { AreNamesKnown self.now }
        ensures { MatchOption result ((name : List ℕ) → ¬ IsReadBy self.now.g.now wanted.now rule.now name)
            (λ name. IsReadBy self.now.g.now wanted.now rule.now name.now) }
    {
        match rule {
            Some(name) => Some(name),
            None => self.name_rules.rule_of(wanted),
        }
    }
}
