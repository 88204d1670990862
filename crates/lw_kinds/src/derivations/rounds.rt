// Which rules may read no token, or any number of tokens, by rounds over all of them.
ghost use Rattle.std.specs.Prelude.{◌≡◌, ◌<◌, ◌≤◌, All, IfOk, length};
ghost use Rattle.lw_kinds.specs.Known.{AreKnown};
ghost use Rattle.lw_kinds.specs.Rounds.{unset, StaysJust, GrewAt, GrewBelow, GrewOrSettled, AreExact};

use crate::derivations::names::Names;
use lw_base::NoMemory;
use std::alloc::Global;

impl Names<'_> {
    /// By rule, whether its body may read no token, or where tokens are allowed any number of them.
    /// Two rounds do where this order has each rule behind those that it calls.
    pub(crate) fn passing(
        &self,
        alloc: Global,
        tokens: bool,
        order: &[usize],
    ) -> Result<Vec<bool>, NoMemory>
        requires known { AreKnown self.now }
        requires order { All (λ r. r < length self.now.g.now.rules) order.now }
        ensures { IfOk result (λ flags. AreExact self.now.g.now tokens flags.items) }
    {
        let mut flags = vec![in alloc; false; self.g.rules.len()]?;
        'rounds: while self.round(tokens, order, flags.as_mut_slice()) {}
        Ok(flags)
    }

    /// Visits the rules in this order, and then each once more. It is false where that set no flag.
    fn round(&self, tokens: bool, order: &[usize], flags: &mut [bool]) -> bool
        requires known { AreKnown self.now }
        requires order { All (λ r. r < length self.now.g.now.rules) order.now }
        requires size { length flags.old ≡ length self.now.g.now.rules }
        ensures just { StaysJust self.now.g.now tokens flags.old flags.new }
        ensures settles { GrewOrSettled self.now.g.now tokens flags.old flags.new result }
    {
        self.visit_some(tokens, order, flags);
        self.visit_all(tokens, flags)
    }

    fn visit_some(&self, tokens: bool, rules: &[usize], flags: &mut [bool])
        requires known { AreKnown self.now }
        requires rules { All (λ r. r < length self.now.g.now.rules) rules.now }
        requires size { length flags.old ≡ length self.now.g.now.rules }
        ensures just { StaysJust self.now.g.now tokens flags.old flags.new }
        ensures fewer { unset flags.new ≤ unset flags.old }
    {
        for rule in rules {
            self.visit(tokens, *rule, flags);
        }
    }

    /// Visits each rule. Whether a flag was set.
    fn visit_all(&self, tokens: bool, flags: &mut [bool]) -> bool
        requires known { AreKnown self.now }
        requires size { length flags.old ≡ length self.now.g.now.rules }
        ensures just { StaysJust self.now.g.now tokens flags.old flags.new }
        ensures grew { GrewBelow self.now.g.now tokens (length flags.old) flags.old flags.new result }
    {
        let mut grew = false;
        for rule in 0..self.g.rules.len() {
            if self.visit(tokens, rule, flags) {
                grew = true;
            }
        }
        grew
    }

    /// Sets the flag of the rule if its body passes. Whether it was not set.
    fn visit(&self, tokens: bool, rule: usize, flags: &mut [bool]) -> bool
        requires known { AreKnown self.now }
        requires within { rule < length self.now.g.now.rules }
        requires size { length flags.old ≡ length self.now.g.now.rules }
        ensures just { StaysJust self.now.g.now tokens flags.old flags.new }
        ensures grew { GrewAt self.now.g.now tokens rule flags.old flags.new result }
    {
        if flags[rule] || !self.passes(tokens, flags, &self.g.rules.as_slice()[rule].body) {
            return false;
        }
        flags[rule] = true;
        true
    }
}
