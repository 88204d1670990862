// What values are to attributes.
ghost use Rattle.std.specs.Prelude.{ℕ, ◌≡◌, ◌↔◌, List, Some, option_map};
ghost use Rattle.std.specs.Option.{option_copied};
ghost use Rattle.lw_base.specs.declared.token.Span.{Span};
ghost use Rattle.lw_grammar.specs.Leaves.{Calls};
ghost use Rattle.lw_faults.specs.Attributes.{Kind, IsKindOf};
ghost use Rattle.lw_numbers.specs.Parts.{value_leaf_of};
ghost use Rattle.lw_numbers.specs.Tables.{AreNumbersOf};
ghost use Rattle.lw_numbers.specs.Kinship.{AreNodeRules};
ghost use Rattle.lw_properties.specs.Kinds.{kind_of_value, rule_type, rule_kind, typed_kind};

use lw_base::Name;
use lw_grammar::{Grammar, Primitive, Rule, RuleResult};
use lw_numbers::leaves::ValuePart;
use lw_numbers::{Called, Numbers};

/// What a part of a value is to an attribute.
#[derive(Clone, Copy, Drop)]
pub enum ValueIs<'g> {
    Plain(Primitive),
    /// A text that a data type rule of this type reads.
    TextsOf(&'g Name),
    NodesOf(&'g Name),
    ReferencesTo(&'g Name),
}

/// The type of a rule, where it has one.
pub fn type_of(rule: &Rule) -> Option<&Name>
    ensures { option_copied result ≡ rule_type rule.now.is_fragment rule.now.result rule.now.name }
{
    if rule.is_fragment {
        return None;
    }
    match &rule.result {
        RuleResult::Own => Some(&rule.name),
        RuleResult::Returns(name, _) | RuleResult::Infers(name, _) => Some(name),
        RuleResult::Gives(_) => None,
    }
}

/// What a part of a value is. A call of an unknown rule or of a fragment of rules is nothing, and so
/// is that of a rule that makes nodes and returns a primitive.
pub fn kind_of<'g>(
    g: &'g Grammar,
    numbers: &Numbers,
    nodes: &[bool],
    part: ValuePart<'g>,
) -> Option<ValueIs<'g>>
    requires numbers { AreNumbersOf g.now numbers.now }
    requires nodes { AreNodeRules g.now nodes.now }
    ensures { (kind : Kind) → IsKindOf g.now (value_leaf_of part.entry) kind ↔ (option_map kind_of_value result ≡ Some kind) }
{
    match part {
        ValuePart::Keyword(..) => Some(ValueIs::Plain(Primitive::Text)),
        ValuePart::Call(name, _) => kind_of_call(g, numbers, nodes, name),
        ValuePart::Cross(wanted, ..) => Some(ValueIs::ReferencesTo(wanted)),
    }
}

fn kind_of_call<'g>(
    g: &'g Grammar,
    numbers: &Numbers,
    nodes: &[bool],
    name: &Name,
) -> Option<ValueIs<'g>>
    requires numbers { AreNumbersOf g.now numbers.now }
    requires nodes { AreNodeRules g.now nodes.now }
    ensures { (s : Span) (kind : Kind) → IsKindOf g.now (Calls name.now s) kind ↔ (option_map kind_of_value result ≡ Some kind) }
{
    match numbers.called(g, name) {
        Called::Rule(number, rule) => kind_of_rule(rule, nodes[number]),
        Called::Terminal(_, terminal) => Some(ValueIs::Plain(terminal.gives)),
        Called::Nothing => None,
    }
}

fn kind_of_rule(rule: &Rule, makes_nodes: bool) -> Option<ValueIs<'_>>
    ensures { option_map kind_of_value result ≡ rule_kind rule.now.is_fragment makes_nodes rule.now.result rule.now.name }
{
    if rule.is_fragment {
        return None;
    }
    match &rule.result {
        RuleResult::Own => Some(typed(&rule.name, makes_nodes)),
        RuleResult::Returns(name, _) => Some(typed(name, makes_nodes)),
        RuleResult::Infers(name, _) => Some(typed(name, makes_nodes)),
        RuleResult::Gives(_) if makes_nodes => None,
        RuleResult::Gives(primitive) => Some(ValueIs::Plain(*primitive)),
    }
}

fn typed(name: &Name, makes_nodes: bool) -> ValueIs<'_>
    ensures { kind_of_value result ≡ typed_kind makes_nodes name.now }
{
    if makes_nodes {
        ValueIs::NodesOf(name)
    } else {
        ValueIs::TextsOf(name)
    }
}
