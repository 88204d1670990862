// Parser rules.
ghost use Rattle.std.specs.Prelude.{◌≡◌, ◌+◌, ◌<◌, ◌≤◌, [], ◌∷◌, length, map, IfOk, OnOk};
ghost use Rattle.lw_gramread.specs.Steps.{ReadsAs};
ghost use Rattle.lw_gramread.specs.TypeSteps.{deepest};
ghost use Rattle.lw_gramread.specs.RuleSteps.{rule, before_name, before_colon, rule_result};

use super::elements::{choice_of, rows};
use super::left::{DEEPEST, Left, Spot, Stop};
use crate::lexeme::Reserved;
use lw_gramlex::Symbol;
use lw_grammar::{Rule, RuleResult};
use std::alloc::Global;

/// 'entry'? 'fragment'? Word ('returns' (Word | Primitive) | 'infers' Word)? ':' Choice ';'
#[tactic(auto, unfolding(crate::specs::RuleSteps::rule, crate::specs::RuleSteps::rule_behind, crate::specs::RuleSteps::rule_tail, crate::specs::ElementSteps::choice))]
pub(crate) fn rule(alloc: Global, left: &mut Left<'_>) -> Result<Rule, Stop>
    ensures reads { ReadsAs (rule deepest left.old) result left.new }
    ensures shorter { length left.new ≤ length left.old }
    ensures taken { OnOk result (length left.new < length left.old) }
{
    let is_entry = left.takes_reserved(Reserved::Entry);
    let is_fragment = left.takes_reserved(Reserved::Fragment);
    let begins_with_name = !is_entry && !is_fragment;
    let (name, span) = left.name(alloc, before_name(begins_with_name))?;
    let result = rule_result(alloc, left)?;
    left.symbol(Symbol::Colon, before_colon(begins_with_name, &result))?;
    let rows = rows(alloc, left, DEEPEST)?;
    left.symbol(Symbol::Semicolon, Spot::Rule)?;
    Ok(Rule {
        name,
        file: 0,
        span,
        is_entry,
        is_fragment,
        result,
        body: choice_of(rows),
    })
}

fn before_name(begins_with_name: bool) -> Spot
    ensures { result ≡ before_name begins_with_name }
{
    if begins_with_name {
        Spot::Elsewhere
    } else {
        Spot::Rule
    }
}

fn before_colon(begins_with_name: bool, found: &RuleResult) -> Spot
    ensures { result ≡ before_colon begins_with_name found.now }
{
    match found {
        RuleResult::Own if begins_with_name => Spot::FirstName,
        RuleResult::Own => Spot::RuleName,
        _ => Spot::RuleType,
    }
}

// ('returns' (Word | Primitive) | 'infers' Word)?
#[tactic(auto, unfolding(crate::specs::RuleSteps::rule_result, crate::specs::RuleSteps::returned))]
fn rule_result(alloc: Global, left: &mut Left<'_>) -> Result<RuleResult, Stop>
    ensures reads { ReadsAs (rule_result left.old) result left.new }
    ensures shorter { length left.new ≤ length left.old }
{
    if left.takes_reserved(Reserved::Infers) {
        let (name, span) = left.name(alloc, Spot::Rule)?;
        return Ok(RuleResult::Infers(name, span));
    }
    if !left.takes_reserved(Reserved::Returns) {
        return Ok(RuleResult::Own);
    }
    if left.sees_primitive() {
        return Ok(RuleResult::Gives(left.primitive(Spot::Rule)?));
    }
    let (name, span) = left.name(alloc, Spot::Rule)?;
    Ok(RuleResult::Returns(name, span))
}
