// What no clause says: that trees are made where there is memory, and what is in two of them, told by hand.
ghost use Rattle.std.specs.Prelude.{◌≡◌, ◌<◌, None, Some, IfOk, length};
ghost use Rattle.lw_reading.specs.Grown.{Grown};
ghost use Rattle.lw_builder.specs.Tables.{AreTablesOf};

use lw_base::{Name, NoMemory, NodeId, PropId, RefId, Span, TypeId};
use lw_builder::preorder::{Finished, in_preorder};
use lw_tree::{Node, Reference, Tree, Value};
use std::alloc::Global;
use std::test::Fail;

/// The tables of one tree in the order of finishing.
#[derive(Drop)]
struct Tables {
    finished: Vec<Finished>,
    values: Vec<(NodeId, PropId, Value)>,
    refs: Vec<Reference>,
}

/// A line for each node: its type, its container, and the values of its first three properties. Then the references.
const WRAPPED: &str = "\
2 in None: plain; node 1 node 3; reference 1;
1 in Some(NodeId(0)):; node 2; reference 0;
0 in Some(NodeId(1)): plain;;;
3 in Some(NodeId(0)):;;;
first in 1, second in 0, ";

const SPAN: Span = Span { start: 3, end: 8 };

/// The root.
fn root(type_id: u16) -> Finished
    ensures { result ≡ record { node = record { type_id = record { 0 = type_id }; container = None; prop = None; span = SPAN }; start = 0 } }
{
    Finished {
        node: Node {
            type_id: TypeId(type_id),
            container: None,
            prop: None,
            span: SPAN,
        },
        start: 0,
    }
}

/// A node in the property 1 of the node at the place `above`.
fn inner(type_id: u16, above: u32, start: u32) -> Finished
    ensures { result ≡ record { node = record { type_id = record { 0 = type_id }; container = Some (record { 0 = above }); prop = Some (record { 0 = 1 }); span = SPAN }; start = start } }
{
    Finished {
        node: Node {
            type_id: TypeId(type_id),
            container: Some(NodeId(above)),
            prop: Some(PropId(1)),
            span: SPAN,
        },
        start,
    }
}

fn reference(owner: u32, name: Name) -> Reference
    ensures { result ≡ record { owner = record { 0 = owner }; prop = record { 0 = 2 }; want = record { 0 = 0 }; name = name; span = SPAN } }
{
    Reference {
        owner: NodeId(owner),
        prop: PropId(2),
        want: TypeId(0),
        name,
        span: SPAN,
    }
}

/// `a` inside `b` and `b` inside `c`, which holds `d` behind it. The types are numbered by these letters.
fn wrapping(alloc: Global) -> Result<Tables, NoMemory>
    ensures { IfOk result (λ t. (x : Grown) × AreTablesOf x t.finished.items t.values.items t.refs.items) }
{
    let finished = vec![in alloc; inner(0, 1, 0), inner(1, 3, 0), inner(3, 3, 2), root(2)]?;
    let values = vec![in alloc;
        (NodeId(0), PropId(0), Value::Number(7, SPAN)),
        (NodeId(1), PropId(1), Value::Child(NodeId(0))),
        (NodeId(1), PropId(2), Value::Refers(RefId(0))),
        (NodeId(3), PropId(0), Value::Truth(SPAN)),
        (NodeId(3), PropId(1), Value::Child(NodeId(1))),
        (NodeId(3), PropId(2), Value::Refers(RefId(1))),
        (NodeId(3), PropId(1), Value::Child(NodeId(2))),
    ]?;
    let first = reference(1, Name::from_text(alloc, "first")?);
    let second = reference(3, Name::from_text(alloc, "second")?);
    let refs = vec![in alloc; first, second]?;
    Ok(Tables {
        finished,
        values,
        refs,
    })
}

fn root_alone(alloc: Global) -> Result<Tables, NoMemory>
    ensures { IfOk result (λ t. (x : Grown) × AreTablesOf x t.finished.items t.values.items t.refs.items) }
{
    Ok(Tables {
        finished: vec![in alloc; root(5)]?,
        values: Vec::new(alloc),
        refs: Vec::new(alloc),
    })
}

fn value_text(alloc: Global, value: &Value) -> Result<String, NoMemory> {
    Ok(match value {
        Value::Child(node) => format!(in alloc; "node {}", node.0)?,
        Value::Refers(number) => format!(in alloc; "reference {}", number.0)?,
        _ => format!(in alloc; "plain")?,
    })
}

fn put_values(
    alloc: Global,
    shown: &mut String,
    entries: &[(NodeId, PropId, Value)],
) -> Result<(), NoMemory> {
    for entry in entries {
        shown.push_str(" ")?;
        shown.push_str(value_text(alloc, &entry.2)?.as_str())?;
    }
    shown.push_str(";")?;
    Ok(())
}

fn put_node(alloc: Global, shown: &mut String, tree: &Tree, number: u32) -> Result<(), NoMemory>
    requires { number < length tree.now.nodes }
{
    let node = tree.node(NodeId(number));
    let head = format!(in alloc; "{} in {:?}:", node.type_id.0, node.container)?;
    shown.push_str(head.as_str())?;
    for prop in 0..3 {
        put_values(alloc, shown, tree.values(NodeId(number), PropId(prop)))?;
    }
    shown.push_str("\n")?;
    Ok(())
}

fn put_references(alloc: Global, shown: &mut String, refs: &[Reference]) -> Result<(), NoMemory> {
    for reference in refs {
        let text = format!(in alloc; "{} in {}, ", reference.name, reference.owner.0)?;
        shown.push_str(text.as_str())?;
    }
    Ok(())
}

fn tree_text(alloc: Global, tree: &Tree) -> Result<String, NoMemory> {
    let mut shown = String::new(alloc);
    for number in 0..tree.len() {
        put_node(alloc, &mut shown, tree, number)?;
    }
    put_references(alloc, &mut shown, tree.refs())?;
    Ok(shown)
}

fn made_text(alloc: Global, tables: Tables) -> Result<String, NoMemory>
    requires { (x : Grown) × AreTablesOf x tables.finished.items tables.values.items tables.refs.items }
{
    let Tables {
        finished,
        values,
        refs,
    } = tables;
    if finished.len() > 4 {
        return Err(NoMemory);
    }
    let tree = in_preorder(alloc, finished, values, refs, Vec::new(alloc), None)?;
    tree_text(alloc, &tree)
}

#[test]
fn trees_are_in_preorder(rt: HostRuntime) -> Result<(), Fail> {
    let alloc = rt.alloc();
    let wrapped = made_text(alloc, wrapping(alloc)?)?;
    assert_eq!(rt; wrapped.as_str(), WRAPPED);
    let root = made_text(alloc, root_alone(alloc)?)?;
    assert_eq!(rt; root.as_str(), "5 in None:;;;\n");
    Ok(())
}
