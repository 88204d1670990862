// The calls that a rule's body writes.
ghost use Rattle.std.specs.Prelude.{◌≡◌, ◌↔◌, [], OnOk, IfOk, Some, None, map, option_map};
ghost use Rattle.std.specs.Option.{option_copied};
ghost use Rattle.lw_grammar.specs.declared.grammar.Grammar.{Grammar};
ghost use Rattle.lw_grammar.specs.Leaves.{value_leaves};
ghost use Rattle.lw_numbers.specs.NameTable.{AreNameRulesOf};
ghost use Rattle.lw_numbers.specs.Parts.{leaf_of, value_leaf_of};
ghost use Rattle.lw_faults.specs.Finding.{Finds, OfSome};
ghost use Rattle.lw_gramcheck.specs.Sites.{Site, site_of, how_of, CrossCalls, PartCalls, LeafSites, HasSite};

use lw_base::{Name, NoMemory, Span};
use lw_grammar::{Op, Rule, Value0};
use lw_numbers::leaves::{BodyLeaf, ValuePart, body_leaves, value_parts};
use lw_numbers::name_rules::NameRules;
use std::alloc::Global;

/// A call of a rule or a terminal in a rule's body, lent from the grammar.
#[derive(Clone, Copy, Drop)]
pub(crate) struct CallSite<'g> {
    pub(crate) name: &'g Name,
    pub(crate) span: Span,
    pub(crate) manner: Manner<'g>,
}

/// How a call is written.
#[derive(Clone, Copy, Drop)]
pub(crate) enum Manner<'g> {
    /// Its value goes into no property.
    Plain,
    /// The property that its value goes into, how, and where that is written.
    Assigned(&'g Name, Op, Span),
    /// It reads the text of a cross-reference that names it.
    Crossed,
    /// It reads the text of a cross-reference that names no rule.
    ByName,
}

/// The calls that the rule's body writes, and those by which its cross-references read that name
/// none, in linear time.
pub(crate) fn call_sites<'g>(
    alloc: Global,
    rule: &'g Rule,
    name_rules: &'g NameRules,
) -> Result<Vec<CallSite<'g>>, NoMemory>
    ensures { (g : Grammar) → AreNameRulesOf g name_rules.now → IfOk result (λ sites. Finds (HasSite g rule.now) [] (map site_of sites.items)) }
{
    let mut sites = Vec::new(alloc);
    let leaves = body_leaves(alloc, &rule.body)?;
    for leaf in &leaves {
        put_leaf(alloc, &mut sites, *leaf, name_rules)?;
    }
    Ok(sites)
}

fn put_leaf<'g>(
    alloc: Global,
    sites: &mut Vec<CallSite<'g>>,
    leaf: BodyLeaf<'g>,
    name_rules: &'g NameRules,
) -> Result<(), NoMemory>
    ensures { (g : Grammar) → AreNameRulesOf g name_rules.now →
        OnOk result (Finds (LeafSites g (leaf_of leaf.entry)) (map site_of sites.old.items) (map site_of sites.new.items)) }
{
    match leaf {
        BodyLeaf::Call(name, span) => {
            let manner = Manner::Plain;
            sites.push(CallSite { name, span, manner })?;
        }
        BodyLeaf::Assign(property, op, value, span) => {
            let manner = Manner::Assigned(property, op, span);
            put_value(alloc, sites, value, manner, name_rules)?;
        }
        BodyLeaf::Keyword(..) | BodyLeaf::Act(_) => {}
    }
    Ok(())
}

/// Puts in what the value calls that is assigned in this manner.
fn put_value<'g>(
    alloc: Global,
    sites: &mut Vec<CallSite<'g>>,
    value: &'g Value0,
    manner: Manner<'g>,
    name_rules: &'g NameRules,
) -> Result<(), NoMemory>
    ensures { (g : Grammar) → AreNameRulesOf g name_rules.now →
        OnOk result (Finds (OfSome (PartCalls g (how_of manner.entry)) (value_leaves value.now)) (map site_of sites.old.items) (map site_of sites.new.items)) }
{
    let parts = value_parts(alloc, value)?;
    for part in &parts {
        put_part(sites, *part, manner, name_rules)?;
    }
    Ok(())
}

fn put_part<'g>(
    sites: &mut Vec<CallSite<'g>>,
    part: ValuePart<'g>,
    manner: Manner<'g>,
    name_rules: &'g NameRules,
) -> Result<(), NoMemory>
    ensures { (g : Grammar) → AreNameRulesOf g name_rules.now →
        OnOk result (Finds (PartCalls g (how_of manner.entry) (value_leaf_of part.entry)) (map site_of sites.old.items) (map site_of sites.new.items)) }
{
    if let Some(site) = part_site(part, manner, name_rules) {
        sites.push(site)?;
    }
    Ok(())
}

/// What the part of a value calls that is assigned in this manner.
fn part_site<'g>(
    part: ValuePart<'g>,
    manner: Manner<'g>,
    name_rules: &'g NameRules,
) -> Option<CallSite<'g>>
    ensures { (g : Grammar) → AreNameRulesOf g name_rules.now →
        (call : Site) → PartCalls g (how_of manner.entry) (value_leaf_of part.entry) call ↔ (option_map site_of result ≡ Some call) }
{
    match part {
        ValuePart::Keyword(..) => None,
        ValuePart::Call(name, span) => Some(CallSite { name, span, manner }),
        ValuePart::Cross(wanted, rule, span) => cross_site(wanted, rule, span, name_rules),
    }
}

/// What a cross-reference to this type is read by, with the rule that it names.
fn cross_site<'g>(
    wanted: &Name,
    rule: Option<&'g Name>,
    span: Span,
    name_rules: &'g NameRules,
) -> Option<CallSite<'g>>
    ensures { (g : Grammar) → AreNameRulesOf g name_rules.now →
        (call : Site) → CrossCalls g wanted.now (option_copied rule.entry) span call ↔ (option_map site_of result ≡ Some call) }
{
    match rule {
        Some(name) => {
            let manner = Manner::Crossed;
            Some(CallSite { name, span, manner })
        }
        None => site_by_name(wanted, span, name_rules),
    }
}

/// What a cross-reference to this type is read by that names no rule.
fn site_by_name<'g>(wanted: &Name, span: Span, name_rules: &'g NameRules) -> Option<CallSite<'g>>
    ensures { (g : Grammar) → AreNameRulesOf g name_rules.now →
        (call : Site) → CrossCalls g wanted.now None span call ↔ (option_map site_of result ≡ Some call) }
{
    match name_rules.rule_of(wanted) {
        Some(name) => {
            let manner = Manner::ByName;
            Some(CallSite { name, span, manner })
        }
        None => None,
    }
}
