// What no clause says: that locals are made where there is memory, and what is found in a tree that was written by hand.
ghost use Rattle.std.specs.Prelude.{◌≡◌, IfOk, length};
ghost use Rattle.lw_scoping.specs.Outward.{ContainersComeFirst};

use lw_base::{Name, NoMemory, NodeId, PropId, Span, TypeId, TypeSet};
use lw_symbols::{Locals, exports, own_answer};
use lw_tree::{Node, Reference, Tree, Value};
use std::alloc::Global;
use std::test::Fail;

// `model m { part x { event x; part y uses x } }`: the model is 0, the part x 1, the event x 2, the part y 3.
const PART: TypeId = TypeId(1);

const EVENT: TypeId = TypeId(2);

const NAME: PropId = PropId(0);

const PARTS: PropId = PropId(1);

const SOMEWHERE: Span = Span { start: 0, end: 0 };

const MODEL: Node = Node {
    type_id: TypeId(0),
    container: None,
    prop: None,
    span: SOMEWHERE,
};

const OUTER: Node = Node {
    type_id: PART,
    container: Some(NodeId(0)),
    prop: Some(PARTS),
    span: SOMEWHERE,
};

const INNER: Node = Node {
    type_id: EVENT,
    container: Some(NodeId(1)),
    prop: Some(PARTS),
    span: SOMEWHERE,
};

const USER: Node = Node {
    type_id: PART,
    container: Some(NodeId(1)),
    prop: Some(PARTS),
    span: SOMEWHERE,
};

type Entry = (NodeId, PropId, Value);

fn name_of(alloc: Global, n: u32, name: &str) -> Result<Entry, NoMemory> {
    let name = Name::from_text(alloc, name)?;
    Ok((NodeId(n), NAME, Value::Text(name, SOMEWHERE)))
}

fn names(alloc: Global) -> Result<Vec<Entry>, NoMemory> {
    let mut names = Vec::new(alloc);
    for (n, name) in ["m", "x", "x", "y"].iter().enumerate() {
        names.push(name_of(alloc, n as u32, name)?)?;
    }
    Ok(names)
}

fn tree(alloc: Global) -> Result<Tree, NoMemory>
    ensures nodes { IfOk result (λ tree. length tree.nodes ≡ 4) }
    ensures outwards { IfOk result ContainersComeFirst }
{
    let nodes = vec![in alloc; MODEL, OUTER, INNER, USER]?;
    let values = names(alloc)?;
    Tree::new(
        alloc,
        nodes,
        values,
        Vec::new(alloc),
        Vec::new(alloc),
        Some(NAME),
    )
}

fn only(alloc: Global, t: TypeId) -> Result<TypeSet, NoMemory> {
    let mut types = TypeSet::new(alloc);
    types.add(t)?;
    Ok(types)
}

#[test]
fn finds_symbols_by_name_and_type(rt: HostRuntime) -> Result<(), Fail> {
    let alloc = rt.alloc();
    let tree = tree(alloc)?;
    let locals = Locals::of_tree(alloc, &tree)?;
    let x = Name::from_text(alloc, "x")?;
    let parts = only(alloc, PART)?;
    let events = only(alloc, EVENT)?;
    assert_eq!(rt; locals.first_named(&tree, NodeId(1), &x, &parts), None);
    assert_eq!(rt;
        locals.first_named(&tree, NodeId(1), &x, &events),
        Some(NodeId(2))
    );
    assert_eq!(rt; locals.first_of_type(&tree, NodeId(1), &x, PART), None);
    assert_eq!(rt;
        locals.first_of_type(&tree, NodeId(1), &x, EVENT),
        Some(NodeId(2))
    );
    assert!(rt; locals.of(NodeId(1)) == [NodeId(2), NodeId(3)].as_slice());
    Ok(())
}

#[test]
fn goes_outwards(rt: HostRuntime) -> Result<(), Fail> {
    let alloc = rt.alloc();
    let tree = tree(alloc)?;
    let locals = Locals::of_tree(alloc, &tree)?;
    let parts = only(alloc, PART)?;
    let reference = Reference {
        owner: NodeId(3),
        prop: PropId(2),
        want: PART,
        name: Name::from_text(alloc, "x")?,
        span: SOMEWHERE,
    };
    assert_eq!(rt;
        own_answer(&tree, &locals, &reference, &parts),
        Some(NodeId(1))
    );
    let exported = exports(alloc, &tree)?;
    assert!(rt; exported.as_slice() == [NodeId(0), NodeId(1)].as_slice());
    Ok(())
}
