// The properties of the types of one small grammar.
ghost use Rattle.std.specs.Prelude.{◌≡◌, ◌+◌, ◌≤◌, ◌∷◌, [], IfOk, length, sum_by};
ghost use Rattle.lw_grammar.specs.Size.{size, element_size, term_size, value_size};

use lw_base::{Items, Name, NoMemory, Span, TypeId};
use lw_flow::Ways;
use lw_grammar::{
    Action, Attribute, Element, Grammar, Interface, Member, Op, Primitive, Rule, RuleResult,
    TermElement, Terminal, UnionDef, Value0,
};
use lw_numbers::Numbers;
use lw_numbers::subtypes::node_rules;
use lw_types::property_table::{PropertyInfo, PropertyTable};
use std::alloc::Global;
use std::test::Fail;

const NOWHERE: Span = Span { start: 0, end: 0 };

fn name(alloc: Global, text: &str) -> Result<Name, NoMemory> {
    Name::from_text(alloc, text)
}

fn pair<T: Drop>(alloc: Global, one: T, other: T) -> Result<Items<T>, NoMemory>
    ensures { IfOk result (λ items. items ≡ one ∷ other ∷ []) }
{
    let mut items = Vec::new(alloc);
    items.push(one)?;
    items.push(other)?;
    Ok(Items::from_vec(items))
}

#[tactic(auto, using(crate::proofs::Sizes::sizes_of_forms))]
fn assigned(alloc: Global, property: &str, op: Op, called: &str) -> Result<Element, NoMemory>
    ensures { IfOk result (λ e. element_size e ≡ 2) }
{
    let value = Value0::Call(name(alloc, called)?, NOWHERE);
    Ok(Element::Assign(name(alloc, property)?, op, value, NOWHERE))
}

/// `{infer Pair.left=current}`
#[tactic(auto, using(crate::proofs::Sizes::sizes_of_forms))]
fn action(alloc: Global) -> Result<Element, NoMemory>
    ensures { IfOk result (λ e. element_size e ≡ 2) }
{
    Ok(Element::Act(Action {
        infers: true,
        type_name: name(alloc, "Pair")?,
        put: Some((name(alloc, "left")?, false)),
        span: NOWHERE,
    }))
}

/// `name=ID first?=ID {infer Pair.left=current} right+=Item`
#[tactic(auto, using(crate::proofs::Sizes::sizes_of_forms))]
fn body(alloc: Global) -> Result<Element, NoMemory>
    ensures { IfOk result (λ e. element_size e ≡ 9) }
{
    let mut parts = Vec::new(alloc);
    parts.push(assigned(alloc, "name", Op::One, "ID")?)?;
    parts.push(assigned(alloc, "first", Op::Flag, "ID")?)?;
    parts.push(action(alloc)?)?;
    parts.push(assigned(alloc, "right", Op::Add, "Item")?)?;
    Ok(Element::Group(Items::from_vec(parts), NOWHERE))
}

fn rule(alloc: Global) -> Result<Rule, NoMemory>
    ensures { IfOk result (λ rule. element_size rule.body ≡ 9) }
{
    Ok(Rule {
        name: name(alloc, "Item")?,
        file: 0,
        span: NOWHERE,
        is_entry: true,
        is_fragment: false,
        result: RuleResult::Own,
        body: body(alloc)?,
    })
}

#[tactic(auto, using(crate::proofs::Sizes::sizes_of_forms))]
fn terminal(alloc: Global) -> Result<Terminal, NoMemory>
    ensures { IfOk result (λ terminal. term_size terminal.body ≡ 1) }
{
    Ok(Terminal {
        name: name(alloc, "ID")?,
        file: 0,
        span: NOWHERE,
        is_hidden: false,
        is_fragment: false,
        gives: Primitive::Number,
        body: TermElement::Pattern(name(alloc, "a")?, NOWHERE),
    })
}

fn attribute(
    alloc: Global,
    text: &str,
    list: bool,
    members: Items<Member>,
) -> Result<Attribute, NoMemory>
    ensures { IfOk result (λ attribute. attribute.members ≡ members) }
{
    Ok(Attribute {
        name: name(alloc, text)?,
        span: NOWHERE,
        optional: false,
        list,
        members,
    })
}

/// `interface Base { name: string | @Base; parts: Any[] | Item[] }`
fn base(alloc: Global) -> Result<Interface, NoMemory>
    ensures { IfOk result (λ i. sum_by (λ attribute. 1 + length attribute.members) i.attributes ≡ 6) }
{
    let refers = Member::Refers(name(alloc, "Base")?, NOWHERE);
    let of_name = pair(alloc, Member::Plain(Primitive::Text), refers)?;
    let any = Member::Named(name(alloc, "Any")?, NOWHERE);
    let of_parts = pair(alloc, any, Member::Named(name(alloc, "Item")?, NOWHERE))?;
    let one = attribute(alloc, "name", false, of_name)?;
    let other = attribute(alloc, "parts", true, of_parts)?;
    Ok(Interface {
        name: name(alloc, "Base")?,
        file: 0,
        span: NOWHERE,
        above: Items::new(alloc),
        attributes: pair(alloc, one, other)?,
    })
}

/// `interface Shape extends Base, Shape { size: 'big' | 'small'; name: boolean | Date }`
fn shape(alloc: Global) -> Result<Interface, NoMemory>
    ensures { IfOk result (λ i. sum_by (λ attribute. 1 + length attribute.members) i.attributes ≡ 6) }
{
    let small = Member::Literal(name(alloc, "small")?);
    let of_size = pair(alloc, Member::Literal(name(alloc, "big")?), small)?;
    let date = Member::Plain(Primitive::Date);
    let of_name = pair(alloc, Member::Plain(Primitive::Boolean), date)?;
    let one = attribute(alloc, "size", false, of_size)?;
    let other = attribute(alloc, "name", false, of_name)?;
    let above = pair(
        alloc,
        (name(alloc, "Base")?, NOWHERE),
        (name(alloc, "Shape")?, NOWHERE),
    )?;
    Ok(Interface {
        name: name(alloc, "Shape")?,
        file: 0,
        span: NOWHERE,
        above,
        attributes: pair(alloc, one, other)?,
    })
}

/// `type Any = Any | Base`
fn union(alloc: Global) -> Result<UnionDef, NoMemory>
    ensures { IfOk result (λ union. length union.members ≡ 2) }
{
    let base = Member::Named(name(alloc, "Base")?, NOWHERE);
    Ok(UnionDef {
        name: name(alloc, "Any")?,
        file: 0,
        span: NOWHERE,
        members: pair(alloc, Member::Named(name(alloc, "Any")?, NOWHERE), base)?,
    })
}

fn one<T: Drop>(alloc: Global, item: T) -> Result<Items<T>, NoMemory>
    ensures { IfOk result (λ items. items ≡ item ∷ []) }
{
    let mut items = Vec::new(alloc);
    items.push(item)?;
    Ok(Items::from_vec(items))
}

fn grammar(alloc: Global) -> Result<Grammar, NoMemory>
    ensures { IfOk result (λ g. size g ≤ 65535) }
{
    let interfaces = pair(alloc, base(alloc)?, shape(alloc)?)?;
    Ok(Grammar {
        name: name(alloc, "G")?,
        files: Items::new(alloc),
        rules: one(alloc, rule(alloc)?)?,
        terminals: one(alloc, terminal(alloc)?)?,
        interfaces,
        unions: one(alloc, union(alloc)?)?,
        imports: Items::new(alloc),
    })
}

const SHOWN: &str =
    "0: 0 false [Plain(Text), Refs(TypeId(0))]; 1 true [Nodes(TypeId(0)), Nodes(TypeId(3))];
1: 2 false [Plain(Text)]; 0 false [Plain(Boolean), Plain(Date)]; 1 true [Nodes(TypeId(0)), Nodes(TypeId(3))];
2:
3: 0 false [Plain(Number)]; 3 false [Plain(Boolean)];
4: 4 false [Nodes(TypeId(3))]; 5 true [Nodes(TypeId(3))];
";

fn put_info(shown: &mut String, alloc: Global, info: &PropertyInfo) -> Result<(), NoMemory> {
    let number = info.prop.0;
    let list = info.list;
    let values = info.values.as_slice();
    let text = format!(in alloc; " {number} {list} {values:?};")?;
    shown.push_str(text.as_str())?;
    Ok(())
}

fn put_infos(
    shown: &mut String,
    alloc: Global,
    number: u16,
    infos: &[PropertyInfo],
) -> Result<(), NoMemory> {
    let text = format!(in alloc; "{number}:")?;
    shown.push_str(text.as_str())?;
    for info in infos {
        put_info(shown, alloc, info)?;
    }
    shown.push_str("\n")?;
    Ok(())
}

fn table(alloc: Global, g: &Grammar) -> Result<PropertyTable, NoMemory>
    requires { size g.now ≤ 65535 }
{
    let numbers = Numbers::of(alloc, g)?;
    let nodes = node_rules(alloc, g, &numbers)?;
    let ways = Ways::of(alloc, g, &numbers, nodes.as_slice())?;
    PropertyTable::of(alloc, g, &numbers, nodes.as_slice(), &ways)
}

fn shown(alloc: Global) -> Result<String, NoMemory> {
    let g = grammar(alloc)?;
    let table = table(alloc, &g)?;
    let mut shown = String::new(alloc);
    let count = table.type_count().min(9) as u16;
    for number in 0..count {
        put_infos(&mut shown, alloc, number, table.properties(TypeId(number)))?;
    }
    Ok(shown)
}

#[test]
fn types_have_their_properties_in_order(rt: HostRuntime) -> Result<(), Fail> {
    let shown = shown(rt.alloc())?;
    assert_eq!(rt; shown.as_str(), SHOWN);
    Ok(())
}
