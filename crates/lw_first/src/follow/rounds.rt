// What follows rules, by rounds.
ghost use Rattle.std.specs.Prelude.{◌≡◌, ◌<◌, IfOk, OnOk, length};
ghost use Rattle.lw_grammar.specs.declared.grammar.Grammar.{Grammar};
ghost use Rattle.lw_grammar.specs.Kinds.{Kinds, AreKinds};
ghost use Rattle.lw_look.specs.Heads.{AreClosedAfters, AreTrueAfters};
ghost use Rattle.lw_first.specs.Sets.{IsInSet};
ghost use Rattle.lw_first.specs.Followed.{HasRuleHeads};
ghost use Rattle.lw_first.specs.FollowRounds.{AreFirstAfters, AreWalked, IsUnderWay, IsWalked, WentOn};

use crate::First;
use crate::follow::following::follow_element;
use crate::heads::{Head, HeadSet};
use lw_base::NoMemory;
use lw_grammar::Grammar;
use lw_kinds::derivations::entry;
use std::alloc::Global;

/// For each rule what may follow its calls up to the end, cut to `k` kinds: all heads, and no others. What no sentence calls has
/// none. Rules are gone through by rounds until none has a new head.
pub fn rule_followers(alloc: Global, first: &First<'_>) -> Result<Vec<HeadSet>, NoMemory>
    requires { HasRuleHeads first.now }
    ensures all { IfOk result (λ sets. length sets.items ≡ length first.now.lexicon.g.now.rules) }
    ensures closed { (kinds : Kinds) → AreKinds first.now.lexicon.g.now kinds →
        IfOk result (λ sets. AreClosedAfters first.now.lexicon.g.now kinds first.now.k (IsInSet first.now.heads.now) (IsInSet sets.items)) }
    ensures no_others { (kinds : Kinds) → AreKinds first.now.lexicon.g.now kinds →
        IfOk result (λ sets. AreTrueAfters first.now.lexicon.g.now kinds first.now.k (IsInSet first.now.heads.now) (IsInSet sets.items)) }
{
    let mut sets = first_sets(alloc, first.lexicon.g)?;
    let mut walked = vec![in alloc; 0; first.lexicon.g.rules.len()]?;
    go_round(alloc, first, walked.as_mut_slice(), sets.as_mut_slice())?;
    Ok(sets)
}

/// For each rule no head, but for the entry rule the end.
fn first_sets(alloc: Global, g: &Grammar) -> Result<Vec<HeadSet>, NoMemory>
    ensures all { IfOk result (λ sets. length sets.items ≡ length g.now.rules) }
    ensures first { IfOk result (λ sets. AreFirstAfters g.now sets.items) }
{
    let mut sets = HeadSet::empty_sets(alloc, g.rules.len())?;
    let Some(rule) = entry(g) else {
        return Ok(sets);
    };
    sets[rule].insert(Head::Nothing)?;
    Ok(sets)
}

/// Goes through rules round by round until a round finds none with new heads.
fn go_round(
    alloc: Global,
    first: &First<'_>,
    walked: &mut [usize],
    sets: &mut [HeadSet],
) -> Result<(), NoMemory>
    requires ready { HasRuleHeads first.now }
    requires walked { length walked.old ≡ length first.now.lexicon.g.now.rules }
    requires all { length sets.old ≡ length first.now.lexicon.g.now.rules }
    ensures { (kinds : Kinds) → AreKinds first.now.lexicon.g.now kinds →
        IsUnderWay first.now.lexicon.g.now kinds first.now.k first.now.heads.now walked.old sets.old →
        OnOk result (IsUnderWay first.now.lexicon.g.now kinds first.now.k first.now.heads.now walked.new sets.new
        × AreWalked (length first.now.lexicon.g.now.rules) walked.new sets.new) }
{
    'rounds: while round(alloc, first, walked, sets)? {}
    Ok(())
}

/// Goes through each rule that has new heads. Whether there was one.
fn round(
    alloc: Global,
    first: &First<'_>,
    walked: &mut [usize],
    sets: &mut [HeadSet],
) -> Result<bool, NoMemory>
    requires ready { HasRuleHeads first.now }
    requires walked { length walked.old ≡ length first.now.lexicon.g.now.rules }
    requires all { length sets.old ≡ length first.now.lexicon.g.now.rules }
    ensures under_way { (kinds : Kinds) → AreKinds first.now.lexicon.g.now kinds →
        IsUnderWay first.now.lexicon.g.now kinds first.now.k first.now.heads.now walked.old sets.old →
        OnOk result (IsUnderWay first.now.lexicon.g.now kinds first.now.k first.now.heads.now walked.new sets.new) }
    ensures went_on { IfOk result (WentOn (AreWalked (length first.now.lexicon.g.now.rules)) walked.old sets.old walked.new sets.new) }
{
    let mut went_on = false;
    for rule in 0..first.lexicon.g.rules.len() {
        if go_through(alloc, first, rule, walked, sets)? {
            went_on = true;
        }
    }
    Ok(went_on)
}

/// Goes through the rule, if it has new heads: puts what may follow the rules that it calls into their sets. Whether it has.
fn go_through(
    alloc: Global,
    first: &First<'_>,
    rule: usize,
    walked: &mut [usize],
    sets: &mut [HeadSet],
) -> Result<bool, NoMemory>
    requires ready { HasRuleHeads first.now }
    requires within { rule < length first.now.lexicon.g.now.rules }
    requires walked { length walked.old ≡ length first.now.lexicon.g.now.rules }
    requires all { length sets.old ≡ length first.now.lexicon.g.now.rules }
    ensures under_way { (kinds : Kinds) → AreKinds first.now.lexicon.g.now kinds →
        IsUnderWay first.now.lexicon.g.now kinds first.now.k first.now.heads.now walked.old sets.old →
        OnOk result (IsUnderWay first.now.lexicon.g.now kinds first.now.k first.now.heads.now walked.new sets.new) }
    ensures went_on { IfOk result (WentOn (IsWalked rule) walked.old sets.old walked.new sets.new) }
{
    let count = sets[rule].len();
    if count <= walked[rule] {
        return Ok(false);
    }
    walked[rule] = count;
    let after = sets[rule].as_slice().to_vec(alloc)?;
    let body = &first.lexicon.g.rules.as_slice()[rule].body;
    follow_element(alloc, first, body, after.as_slice(), sets)?;
    Ok(true)
}
