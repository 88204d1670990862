// What rules can read.
ghost use Rattle.std.specs.Prelude.{ℕ, ◌≡◌, ◌↔◌, Some, IfOk, IsTrue, slice_get};
ghost use Rattle.lw_grammar.specs.declared.grammar.Grammar.{Grammar};
ghost use Rattle.lw_grammar.specs.declared.rule.Rule.{Rule};
ghost use Rattle.lw_grammar.specs.Reached.{IsReached};
ghost use Rattle.lw_numbers.specs.Tables.{AreNumbersOf};
ghost use Rattle.lw_numbers.specs.NameTable.{AreNameRulesOf};
ghost use Rattle.lw_faults.specs.Reads.{MayRead};
ghost use Rattle.lw_graph.specs.Walks.{HasNode};
ghost use Rattle.lw_kinds.specs.Reading.{IsReadingOf};

use crate::derivations::flags::is_set;
use crate::derivations::names::Names;
use crate::derivations::reaching::reached;
use lw_base::NoMemory;
use lw_grammar::Grammar;
use lw_graph::NodeSet;
use lw_numbers::Numbers;
use lw_numbers::name_rules::NameRules;
use std::alloc::Global;
use std::marker::Model;

/// What the rules of a grammar can read, by their numbers.
#[derive(Drop)]
pub struct Reading {
    reached: NodeSet,
    nothing: Vec<bool>,
    ends: Vec<bool>,
}

impl Model for Reading {
    ghost use Rattle.lw_kinds.specs.Reading.{RuleFlags};

    ghost Value = { RuleFlags };

    ghost view = { λ a. record { reached = a.reached; nothing = a.nothing.items; ends = a.ends.items } };
}

impl Reading {
    /// What the rules of this grammar can read.
    pub fn of(
        alloc: Global,
        g: &Grammar,
        numbers: &Numbers,
        name_rules: &NameRules,
    ) -> Result<Reading, NoMemory>
        requires numbered { AreNumbersOf g.now numbers.now }
        requires related { AreNameRulesOf g.now name_rules.now }
        ensures { IfOk result (IsReadingOf g.now) }
    {
        let names = Names {
            g,
            numbers,
            name_rules,
        };
        let calls = names.calls(alloc)?;
        let order = calls.successors_first(alloc)?;
        Ok(Reading {
            reached: reached(alloc, g, &calls)?,
            nothing: names.passing(alloc, false, order.as_slice())?,
            ends: names.passing(alloc, true, order.as_slice())?,
        })
    }

    /// Which rules may read no token, by their numbers.
    pub(crate) fn nothing(&self) -> &[bool]
        ensures { result.now ≡ self.now.nothing }
    {
        self.nothing.as_slice()
    }

    /// Whether the rule of this number can be reached from the entry rule.
    pub fn is_reached(&self, rule: usize) -> bool
        ensures flag { IsTrue result ↔ HasNode self.now.reached rule }
        ensures reached { (g : Grammar) → IsReadingOf g self.now → IsTrue result ↔ IsReached g rule }
    {
        self.reached.holds(rule)
    }

    /// Whether the rule of this number may read no token.
    pub fn may_read_nothing(&self, rule: usize) -> bool
        ensures flag { IsTrue result ↔ HasNode self.now.nothing rule }
        ensures nothing { (g : Grammar) (r : Rule) → IsReadingOf g self.now → slice_get g.rules rule ≡ Some r → IsTrue result ↔ MayRead g r.body 0 }
    {
        is_set(self.nothing.as_slice(), rule)
    }

    /// Whether the rule of this number has a finite sentence.
    pub fn can_end(&self, rule: usize) -> bool
        ensures flag { IsTrue result ↔ HasNode self.now.ends rule }
        ensures ends { (g : Grammar) (r : Rule) → IsReadingOf g self.now → slice_get g.rules rule ≡ Some r → IsTrue result ↔ ((n : ℕ) × MayRead g r.body n) }
    {
        is_set(self.ends.as_slice(), rule)
    }
}
