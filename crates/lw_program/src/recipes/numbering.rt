// The numbers of types and properties.
ghost use Rattle.std.specs.Prelude.{ℕ, ◌≡◌, List, Some, IfOk, IsSomeAnd, MatchOption, Contains};
ghost use Rattle.lw_grammar.specs.declared.grammar.Grammar.{Grammar};
ghost use Rattle.lw_grammar.specs.Subtypes.{HasType};
ghost use Rattle.lw_kinds.specs.LexiconKnown.{IsKnownLexicon};
ghost use Rattle.lw_reading.specs.Numbers.{IsNumberOfType, IsNumberOfProperty, IsNamingProperty};
ghost use Rattle.lw_numbers.specs.Numbering.{type_names, property_names};
ghost use Rattle.lw_program.specs.Drafted.{IsRuleType};

use lw_base::{Name, NoMemory, PropId, TypeId};
use lw_grammar::{Rule, RuleResult};
use lw_kinds::lexicon::Lexicon;
use std::alloc::Global;

/// The number of the type of this name.
pub(crate) fn type_number(lexicon: Lexicon<'_>, name: &Name) -> Option<TypeId>
    requires known { IsKnownLexicon lexicon }
    ensures { MatchOption result ((n : ℕ) → ¬ IsNumberOfType lexicon.entry.g.now name.now n) (λ id. IsNumberOfType lexicon.entry.g.now name.now id.0) }
{
    lexicon.numbers.type_of(name)
}

/// The same, of a type that the grammar names.
pub(crate) fn named_type(lexicon: Lexicon<'_>, name: &Name) -> TypeId
    requires known { IsKnownLexicon lexicon }
    requires named { Contains (type_names lexicon.g.now) name.now }
    ensures { IsNumberOfType lexicon.entry.g.now name.now result.0 }
{
    match type_number(lexicon, name) {
        Some(id) => id,
        None => unreachable!(),
    }
}

/// The number of the property of this name.
fn property_number(lexicon: Lexicon<'_>, name: &Name) -> Option<PropId>
    requires known { IsKnownLexicon lexicon }
    ensures { MatchOption result ((n : ℕ) → ¬ IsNumberOfProperty lexicon.entry.g.now name.now n)
        (λ id. IsNumberOfProperty lexicon.entry.g.now name.now id.0) }
{
    lexicon.numbers.prop(name)
}

/// The same, of a property that the grammar names.
pub(crate) fn named_property(lexicon: Lexicon<'_>, name: &Name) -> PropId
    requires known { IsKnownLexicon lexicon }
    requires named { Contains (property_names lexicon.g.now) name.now }
    ensures { IsNumberOfProperty lexicon.entry.g.now name.now result.0 }
{
    match property_number(lexicon, name) {
        Some(id) => id,
        None => unreachable!(),
    }
}

/// The property `name`, where the grammar has one.
pub(crate) fn naming_property(
    alloc: Global,
    lexicon: Lexicon<'_>,
) -> Result<Option<PropId>, NoMemory>
    requires known { IsKnownLexicon lexicon }
    ensures { IfOk result (IsNamingProperty lexicon.entry.g.now) }
{
    let name = Name::from_text(alloc, "name")?;
    Ok(property_number(lexicon, &name))
}

/// The number of the rule's type, where it has a type.
pub(crate) fn opened_type(lexicon: Lexicon<'_>, rule: &Rule) -> Option<TypeId>
    requires known { IsKnownLexicon lexicon }
    ensures { IsRuleType lexicon.entry.g.now rule.now result }
{
    match type_of(rule) {
        Some(name) => type_number(lexicon, name),
        None => None,
    }
}

/// The type of a rule: the one after `returns` or `infers`, else the rule's own name.
fn type_of(rule: &Rule) -> Option<&Name>
    ensures { (g : Grammar) (name : List ℕ) → HasType g rule.now name → IsSomeAnd result (λ own. own.now ≡ name) }
{
    if rule.is_fragment {
        return None;
    }
    match &rule.result {
        RuleResult::Own => Some(&rule.name),
        RuleResult::Returns(name, _) | RuleResult::Infers(name, _) => Some(name),
        RuleResult::Gives(_) => None,
    }
}
