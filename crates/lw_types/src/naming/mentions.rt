// The names that a grammar writes.
ghost use Rattle.std.specs.Prelude.{◌≡◌, [], ◌∷◌, ◌++◌, OnOk, IfOk, map};
ghost use Rattle.std.specs.List.{flat_map};
ghost use Rattle.lw_grammar.specs.Leaves.{leaves, value_leaves};
ghost use Rattle.lw_grammar.specs.Written.{term_calls};
ghost use Rattle.lw_numbers.specs.Parts.{leaf_of, value_leaf_of, term_call_of};
ghost use Rattle.lw_types.specs.NameUses.{name_use, use_of, value_uses, leaf_uses, result_uses, rule_uses, named_uses, called_uses, terminal_uses, member_uses, attribute_uses, interface_uses, union_uses, uses};

use lw_base::{Name, NoMemory, Span};
use lw_grammar::{
    Attribute, Element, Grammar, Interface, Member, Rule, RuleResult, TermElement, Terminal,
    UnionDef, Value0,
};
use lw_numbers::leaves::{BodyLeaf, ValuePart, body_leaves, term_calls, value_parts};
use std::alloc::Global;

/// What a name does where it is written.
#[derive(Clone, Copy, Debug, PartialEq, Eq)]
pub(crate) enum Role {
    /// It is that of a type which is inferred.
    InfersType,
    /// It calls a rule or a terminal.
    CallsRule,
    /// It names a type that is to be there.
    NamesType,
    /// It is the type of a cross-reference that writes no rule.
    WantsNameRule,
}

/// A name that a grammar writes, lent from it, and where.
#[derive(Clone, Copy, Drop)]
pub(crate) struct Mention<'g> {
    pub(crate) role: Role,
    pub(crate) file: u16,
    pub(crate) span: Span,
    pub(crate) name: &'g Name,
}

/// The names that the grammar writes, in linear time.
pub(crate) fn mentions(alloc: Global, g: &Grammar) -> Result<Vec<Mention<'_>>, NoMemory>
    ensures { IfOk result (λ found. map use_of found.items ≡ uses g.now) }
{
    let mut found = Vec::new(alloc);
    put_rules(alloc, &mut found, g.rules.as_slice())?;
    put_terminals(alloc, &mut found, g.terminals.as_slice())?;
    put_interfaces(&mut found, g.interfaces.as_slice())?;
    put_unions(&mut found, g.unions.as_slice())?;
    Ok(found)
}

fn put<'g>(
    found: &mut Vec<Mention<'g>>,
    role: Role,
    file: u16,
    name: &'g Name,
    span: Span,
) -> Result<(), NoMemory>
    ensures { OnOk result (map use_of found.new.items ≡ map use_of found.old.items ++ name_use role file name.now span ∷ []) }
{
    found.push(Mention {
        role,
        file,
        span,
        name,
    })?;
    Ok(())
}

// ---- rules

fn put_rules<'g>(
    alloc: Global,
    found: &mut Vec<Mention<'g>>,
    rules: &'g [Rule],
) -> Result<(), NoMemory>
    ensures { OnOk result (map use_of found.new.items ≡ map use_of found.old.items ++ flat_map rule_uses rules.now) }
{
    for rule in rules {
        put_rule(alloc, found, rule)?;
    }
    Ok(())
}

fn put_rule<'g>(alloc: Global, found: &mut Vec<Mention<'g>>, rule: &'g Rule) -> Result<(), NoMemory>
    ensures { OnOk result (map use_of found.new.items ≡ map use_of found.old.items ++ rule_uses rule.now) }
{
    put_result(found, rule)?;
    put_body(alloc, found, rule.file, &rule.body)
}

/// Puts in the type that the rule says that it gives.
fn put_result<'g>(found: &mut Vec<Mention<'g>>, rule: &'g Rule) -> Result<(), NoMemory>
    ensures { OnOk result (map use_of found.new.items ≡ map use_of found.old.items ++ result_uses rule.now rule.now.result) }
{
    match &rule.result {
        RuleResult::Own if !rule.is_fragment => {
            put(found, Role::InfersType, rule.file, &rule.name, rule.span)
        }
        RuleResult::Infers(name, span) if !rule.is_fragment => {
            put(found, Role::InfersType, rule.file, name, *span)
        }
        RuleResult::Returns(name, span) => put(found, Role::NamesType, rule.file, name, *span),
        RuleResult::Own | RuleResult::Infers(..) | RuleResult::Gives(_) => Ok(()),
    }
}

fn put_body<'g>(
    alloc: Global,
    found: &mut Vec<Mention<'g>>,
    file: u16,
    body: &'g Element,
) -> Result<(), NoMemory>
    ensures { OnOk result (map use_of found.new.items ≡ map use_of found.old.items ++ flat_map (leaf_uses file) (leaves body.now)) }
{
    let leaves = body_leaves(alloc, body)?;
    put_leaves(alloc, found, file, leaves.as_slice())
}

fn put_leaves<'g>(
    alloc: Global,
    found: &mut Vec<Mention<'g>>,
    file: u16,
    leaves: &[BodyLeaf<'g>],
) -> Result<(), NoMemory>
    ensures { OnOk result (map use_of found.new.items ≡ map use_of found.old.items ++ flat_map (λ leaf. leaf_uses file (leaf_of leaf)) leaves.now) }
{
    for leaf in leaves {
        put_leaf(alloc, found, file, *leaf)?;
    }
    Ok(())
}

fn put_leaf<'g>(
    alloc: Global,
    found: &mut Vec<Mention<'g>>,
    file: u16,
    leaf: BodyLeaf<'g>,
) -> Result<(), NoMemory>
    ensures { OnOk result (map use_of found.new.items ≡ map use_of found.old.items ++ leaf_uses file (leaf_of leaf.entry)) }
{
    match leaf {
        BodyLeaf::Keyword(..) => Ok(()),
        BodyLeaf::Call(name, span) => put(found, Role::CallsRule, file, name, span),
        BodyLeaf::Assign(_, _, value, _) => put_value(alloc, found, file, value),
        BodyLeaf::Act(action) if action.infers => {
            put(
                found,
                Role::InfersType,
                file,
                &action.type_name,
                action.span,
            )
        }
        BodyLeaf::Act(action) => {
            put(found, Role::NamesType, file, &action.type_name, action.span)
        }
    }
}

fn put_value<'g>(
    alloc: Global,
    found: &mut Vec<Mention<'g>>,
    file: u16,
    value: &'g Value0,
) -> Result<(), NoMemory>
    ensures { OnOk result (map use_of found.new.items ≡ map use_of found.old.items ++ flat_map (value_uses file) (value_leaves value.now)) }
{
    let parts = value_parts(alloc, value)?;
    put_parts(found, file, parts.as_slice())
}

fn put_parts<'g>(
    found: &mut Vec<Mention<'g>>,
    file: u16,
    parts: &[ValuePart<'g>],
) -> Result<(), NoMemory>
    ensures { OnOk result (map use_of found.new.items ≡ map use_of found.old.items ++ flat_map (λ part. value_uses file (value_leaf_of part)) parts.now) }
{
    for part in parts {
        put_part(found, file, *part)?;
    }
    Ok(())
}

fn put_part<'g>(
    found: &mut Vec<Mention<'g>>,
    file: u16,
    part: ValuePart<'g>,
) -> Result<(), NoMemory>
    ensures { OnOk result (map use_of found.new.items ≡ map use_of found.old.items ++ value_uses file (value_leaf_of part.entry)) }
{
    match part {
        ValuePart::Keyword(..) => Ok(()),
        ValuePart::Call(name, span) => put(found, Role::CallsRule, file, name, span),
        ValuePart::Cross(wanted, Some(rule), span) => {
            put(found, Role::NamesType, file, wanted, span)?;
            put(found, Role::CallsRule, file, rule, span)
        }
        ValuePart::Cross(wanted, None, span) => {
            put(found, Role::NamesType, file, wanted, span)?;
            put(found, Role::WantsNameRule, file, wanted, span)
        }
    }
}

// ---- terminals

fn put_terminals<'g>(
    alloc: Global,
    found: &mut Vec<Mention<'g>>,
    terminals: &'g [Terminal],
) -> Result<(), NoMemory>
    ensures { OnOk result (map use_of found.new.items ≡ map use_of found.old.items ++ flat_map terminal_uses terminals.now) }
{
    for terminal in terminals {
        put_terminal(alloc, found, terminal)?;
    }
    Ok(())
}

fn put_terminal<'g>(
    alloc: Global,
    found: &mut Vec<Mention<'g>>,
    terminal: &'g Terminal,
) -> Result<(), NoMemory>
    ensures { OnOk result (map use_of found.new.items ≡ map use_of found.old.items ++ terminal_uses terminal.now) }
{
    put_term(alloc, found, terminal.file, &terminal.body)
}

fn put_term<'g>(
    alloc: Global,
    found: &mut Vec<Mention<'g>>,
    file: u16,
    body: &'g TermElement,
) -> Result<(), NoMemory>
    ensures { OnOk result (map use_of found.new.items ≡ map use_of found.old.items ++ flat_map (called_uses file) (term_calls body.now)) }
{
    let calls = term_calls(alloc, body)?;
    put_calls(found, file, calls.as_slice())
}

fn put_calls<'g>(
    found: &mut Vec<Mention<'g>>,
    file: u16,
    calls: &[(&'g Name, Span)],
) -> Result<(), NoMemory>
    ensures { OnOk result (map use_of found.new.items ≡ map use_of found.old.items ++ flat_map (λ call. called_uses file (term_call_of call)) calls.now) }
{
    for (name, span) in calls {
        put(found, Role::CallsRule, file, name, *span)?;
    }
    Ok(())
}

// ---- declared types

fn put_interfaces<'g>(
    found: &mut Vec<Mention<'g>>,
    interfaces: &'g [Interface],
) -> Result<(), NoMemory>
    ensures { OnOk result (map use_of found.new.items ≡ map use_of found.old.items ++ flat_map interface_uses interfaces.now) }
{
    for interface in interfaces {
        put_interface(found, interface)?;
    }
    Ok(())
}

fn put_interface<'g>(found: &mut Vec<Mention<'g>>, interface: &'g Interface) -> Result<(), NoMemory>
    ensures { OnOk result (map use_of found.new.items ≡ map use_of found.old.items ++ interface_uses interface.now) }
{
    put_named(found, interface.file, interface.above.as_slice())?;
    put_attributes(found, interface.file, interface.attributes.as_slice())
}

fn put_named<'g>(
    found: &mut Vec<Mention<'g>>,
    file: u16,
    named: &'g [(Name, Span)],
) -> Result<(), NoMemory>
    ensures { OnOk result (map use_of found.new.items ≡ map use_of found.old.items ++ flat_map (named_uses file) named.now) }
{
    for (name, span) in named {
        put(found, Role::NamesType, file, name, *span)?;
    }
    Ok(())
}

fn put_attributes<'g>(
    found: &mut Vec<Mention<'g>>,
    file: u16,
    attributes: &'g [Attribute],
) -> Result<(), NoMemory>
    ensures { OnOk result (map use_of found.new.items ≡ map use_of found.old.items ++ flat_map (attribute_uses file) attributes.now) }
{
    for attribute in attributes {
        put_members(found, file, attribute.members.as_slice())?;
    }
    Ok(())
}

fn put_members<'g>(
    found: &mut Vec<Mention<'g>>,
    file: u16,
    members: &'g [Member],
) -> Result<(), NoMemory>
    ensures { OnOk result (map use_of found.new.items ≡ map use_of found.old.items ++ flat_map (member_uses file) members.now) }
{
    for member in members {
        put_member(found, file, member)?;
    }
    Ok(())
}

fn put_member<'g>(
    found: &mut Vec<Mention<'g>>,
    file: u16,
    member: &'g Member,
) -> Result<(), NoMemory>
    ensures { OnOk result (map use_of found.new.items ≡ map use_of found.old.items ++ member_uses file member.now) }
{
    match member {
        Member::Named(name, span) | Member::Refers(name, span) => {
            put(found, Role::NamesType, file, name, *span)
        }
        Member::Plain(_) | Member::Literal(_) => Ok(()),
    }
}

fn put_unions<'g>(found: &mut Vec<Mention<'g>>, unions: &'g [UnionDef]) -> Result<(), NoMemory>
    ensures { OnOk result (map use_of found.new.items ≡ map use_of found.old.items ++ flat_map union_uses unions.now) }
{
    for union in unions {
        put_union(found, union)?;
    }
    Ok(())
}

fn put_union<'g>(found: &mut Vec<Mention<'g>>, union: &'g UnionDef) -> Result<(), NoMemory>
    ensures { OnOk result (map use_of found.new.items ≡ map use_of found.old.items ++ union_uses union.now) }
{
    put_members(found, union.file, union.members.as_slice())
}
