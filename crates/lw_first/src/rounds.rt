// The heads of rules, by rounds.
ghost use Rattle.std.specs.Prelude.{ℕ, ◌≡◌, ◌<◌, ◌≤◌, All, Contains, IfOk, OnOk, false, length, slice_index_or};
ghost use Rattle.lw_grammar.specs.Kinds.{Kinds, AreKinds};
ghost use Rattle.lw_look.specs.Heads.{AreClosedHeads, AreTrueHeads};
ghost use Rattle.lw_look.specs.Supplied.{NodesAreTold};
ghost use Rattle.lw_first.specs.Sets.{IsInSet};
ghost use Rattle.lw_kinds.specs.LexiconKnown.{IsKnownLexicon};
ghost use Rattle.lw_first.specs.Rounds.{GrewOrSame, GrowsAt, IsWork, NoneWaits, SettlesMore, StaysTrue, WorksOrRests};

use crate::First;
use crate::callers::callers_of_rules;
use crate::heads::{Head, HeadSet};
use lw_base::NoMemory;
use lw_graph::Graph;
use lw_kinds::lexicon::Lexicon;
use std::alloc::Global;

/// For each rule what its calls may begin with, cut to `k` kinds: all heads, and no others. Rules are gone through by rounds until
/// none has a new head.
pub fn rule_heads(alloc: Global, lexicon: Lexicon<'_>, k: usize) -> Result<Vec<HeadSet>, NoMemory>
    requires known { IsKnownLexicon lexicon }
    requires most { k ≤ 3 }
    requires told { NodesAreTold lexicon.g.now }
    ensures all { IfOk result (λ sets. length sets.items ≡ length lexicon.entry.g.now.rules) }
    ensures closed { (kinds : Kinds) → AreKinds lexicon.entry.g.now kinds → IfOk result (λ sets. AreClosedHeads lexicon.entry.g.now kinds k (IsInSet sets.items)) }
    ensures no_others { (kinds : Kinds) → AreKinds lexicon.entry.g.now kinds → IfOk result (λ sets. AreTrueHeads lexicon.entry.g.now kinds k (IsInSet sets.items)) }
{
    let callers = callers_of_rules(alloc, lexicon)?;
    let work = Work {
        lexicon,
        k,
        callers: &callers,
    };
    work.sets(alloc)
}

/// What stays as it is while rules are done.
#[derive(Clone, Copy)]
pub(crate) struct Work<'a> {
    pub(crate) lexicon: Lexicon<'a>,
    pub(crate) k: usize,
    /// Edges lead from each rule to those that call it.
    pub(crate) callers: &'a Graph,
}

impl Work<'_> {
    /// The heads of the rules. At first each rule waits to be done.
    fn sets(&self, alloc: Global) -> Result<Vec<HeadSet>, NoMemory>
        requires { IsWork self.now }
        ensures all { IfOk result (λ sets. length sets.items ≡ length self.now.lexicon.g.now.rules) }
        ensures closed { (kinds : Kinds) → AreKinds self.now.lexicon.g.now kinds → IfOk result (λ sets. AreClosedHeads self.now.lexicon.g.now kinds self.now.k (IsInSet sets.items)) }
        ensures no_others { (kinds : Kinds) → AreKinds self.now.lexicon.g.now kinds → IfOk result (λ sets. AreTrueHeads self.now.lexicon.g.now kinds self.now.k (IsInSet sets.items)) }
    {
        let rules = self.lexicon.g.rules.len();
        let mut waiting = vec![in alloc; true; rules]?;
        let mut sets = HeadSet::empty_sets(alloc, rules)?;
        'rounds: while self.round(alloc, waiting.as_mut_slice(), sets.as_mut_slice())? {}
        Ok(sets)
    }

    /// Does each rule that waits, from the last to the first, since most stand before those that they call. It is false where none
    /// waits.
    fn round(
        &self,
        alloc: Global,
        waiting: &mut [bool],
        sets: &mut [HeadSet],
    ) -> Result<bool, NoMemory>
        requires work { IsWork self.now }
        requires flags { length waiting.old ≡ length self.now.lexicon.g.now.rules }
        requires all { length sets.old ≡ length self.now.lexicon.g.now.rules }
        ensures no_others { (kinds : Kinds) → AreKinds self.now.lexicon.g.now kinds →
            OnOk result (StaysTrue self.now.lexicon.g.now kinds self.now.k sets.old sets.new) }
        ensures settles { (kinds : Kinds) → AreKinds self.now.lexicon.g.now kinds →
            OnOk result (SettlesMore self.now.lexicon.g.now kinds self.now.k (waiting.old, sets.old) (waiting.new, sets.new)) }
        ensures works { IfOk result (WorksOrRests (waiting.old, sets.old) (waiting.new, sets.new)) }
        ensures rests { IfOk result (λ worked. worked ≡ false → NoneWaits 0 waiting.new) }
    {
        let mut worked = false;
        let mut left = sets.len();
        'rules: while left > 0 {
            left -= 1;
            worked |= self.visit(alloc, left, waiting, sets)?;
        }
        Ok(worked)
    }

    /// Does the rule if it waits. If it got a head, those that call it wait from now on.
    fn visit(
        &self,
        alloc: Global,
        number: usize,
        waiting: &mut [bool],
        sets: &mut [HeadSet],
    ) -> Result<bool, NoMemory>
        requires work { IsWork self.now }
        requires flags { length waiting.old ≡ length self.now.lexicon.g.now.rules }
        requires all { length sets.old ≡ length self.now.lexicon.g.now.rules }
        requires within { number < length waiting.old }
        ensures no_others { (kinds : Kinds) → AreKinds self.now.lexicon.g.now kinds →
            OnOk result (StaysTrue self.now.lexicon.g.now kinds self.now.k sets.old sets.new) }
        ensures settles { (kinds : Kinds) → AreKinds self.now.lexicon.g.now kinds →
            OnOk result (SettlesMore self.now.lexicon.g.now kinds self.now.k (waiting.old, sets.old) (waiting.new, sets.new)) }
        ensures works { IfOk result (WorksOrRests (waiting.old, sets.old) (waiting.new, sets.new)) }
        ensures rests { IfOk result (λ worked. worked ≡ false → slice_index_or waiting.new number false ≡ false) }
    {
        if !waiting[number] {
            return Ok(false);
        }
        waiting[number] = false;
        if !self.grow(alloc, number, sets)? {
            return Ok(true);
        }
        wake(self.callers.successors(number), waiting);
        Ok(true)
    }

    /// Puts what the body of a rule may begin with into the rule's own set. It is false where none of it is new.
    fn grow(&self, alloc: Global, number: usize, sets: &mut [HeadSet]) -> Result<bool, NoMemory>
        requires work { IsWork self.now }
        requires all { length sets.old ≡ length self.now.lexicon.g.now.rules }
        requires within { number < length sets.old }
        ensures grows { (kinds : Kinds) → AreKinds self.now.lexicon.g.now kinds →
            OnOk result (GrowsAt self.now.lexicon.g.now kinds self.now.k number sets.old sets.new) }
        ensures grew { IfOk result (GrewOrSame sets.old sets.new) }
    {
        let mut heads = HeadSet::new(alloc);
        let first = First {
            lexicon: self.lexicon,
            k: self.k,
            heads: sets,
        };
        let rule = &self.lexicon.g.rules.as_slice()[number];
        first.element(alloc, &rule.body, &[Head::Nothing], &mut heads)?;
        let own = &mut sets[number];
        let before = own.len();
        own.insert_all(heads.as_slice())?;
        Ok(own.len() > before)
    }
}

/// From now on these rules wait.
fn wake(rules: &[usize], waiting: &mut [bool])
    requires { All (λ rule. rule < length waiting.old) rules.now }
    ensures { (r : ℕ) → slice_index_or waiting.new r false ≡ false → (slice_index_or waiting.old r false ≡ false) × ¬ Contains rules.now r }
{
    for rule in rules {
        waiting[*rule] = true;
    }
}
