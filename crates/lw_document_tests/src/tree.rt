// What no clause says: that a tree is made where there is memory, and what its readers give for a text that was read by hand.
ghost use Rattle.std.specs.Prelude.{◌≡◌, IfOk, length};
ghost use Rattle.lw_tree.specs.Parts.{Tile};

use lw_base::{KindId, Name, NoMemory, NodeId, PropId, RefId, Span, Token, TypeId};
use lw_tree::{Node, Reference, Tree, Value};
use std::alloc::Global;
use std::process::Abort;
use std::test::Fail;

// `Model: 'model' name=ID states+=State* 'end'; State: 'state' name=ID 'to' next=[State];`, and tokens of kind 5 are blanks.
const MODEL: TypeId = TypeId(0);

const STATE: TypeId = TypeId(1);

const NAME: PropId = PropId(0);

const STATES: PropId = PropId(1);

const NEXT: PropId = PropId(2);

const ROOT: Node = Node {
    type_id: MODEL,
    container: None,
    prop: None,
    span: Span { start: 0, end: 24 },
};

const CHILD: Node = Node {
    type_id: STATE,
    container: Some(NodeId(0)),
    prop: Some(STATES),
    span: Span { start: 8, end: 20 },
};

fn token(kind: u16, start: u32, end: u32) -> Token
    ensures start { result.span.start ≡ start }
    ensures end { result.span.end ≡ end }
{
    let kind = KindId(kind);
    let span = Span { start, end };
    let hidden = kind == KindId(5);
    Token { kind, span, hidden }
}

/// The tokens of `model m state x to x end`.
fn tokens(alloc: Global) -> Result<Vec<Token>, NoMemory>
    ensures { IfOk result (λ tokens. Tile 0 tokens.items) }
{
    Ok(vec![in alloc;
        token(0, 0, 5),
        token(5, 5, 6),
        token(4, 6, 7),
        token(5, 7, 8),
        token(1, 8, 13),
        token(5, 13, 14),
        token(4, 14, 15),
        token(5, 15, 16),
        token(2, 16, 18),
        token(5, 18, 19),
        token(4, 19, 20),
        token(5, 20, 21),
        token(3, 21, 24),
    ]?)
}

fn text(alloc: Global, text: &str, start: u32, end: u32) -> Result<Value, NoMemory> {
    let name = Name::from_text(alloc, text)?;
    Ok(Value::Text(name, Span { start, end }))
}

fn refs(alloc: Global) -> Result<Vec<Reference>, NoMemory> {
    let next = Reference {
        owner: NodeId(1),
        prop: NEXT,
        want: STATE,
        name: Name::from_text(alloc, "x")?,
        span: Span { start: 19, end: 20 },
    };
    Ok(vec![in alloc; next]?)
}

type Entry = (NodeId, PropId, Value);

fn names(alloc: Global) -> Result<Vec<Entry>, NoMemory> {
    let inner = text(alloc, "x", 14, 15)?;
    let outer = text(alloc, "m", 6, 7)?;
    Ok(vec![in alloc; (NodeId(1), NAME, inner), (NodeId(0), NAME, outer)]?)
}

/// The values of both nodes, from the end of the text to its start.
fn values(alloc: Global) -> Result<Vec<Entry>, NoMemory> {
    let mut values = names(alloc)?;
    values.push((NodeId(0), STATES, Value::Child(NodeId(1))))?;
    values.push((NodeId(1), NEXT, Value::Refers(RefId(0))))?;
    Ok(values)
}

fn tree_of(alloc: Global, refs: Vec<Reference>, tokens: Vec<Token>) -> Result<Tree, NoMemory>
    requires { Tile 0 tokens.items }
    ensures { IfOk result (λ tree. length tree.nodes ≡ 2) }
{
    let nodes = vec![in alloc; ROOT, CHILD]?;
    Tree::new(alloc, nodes, values(alloc)?, refs, tokens, Some(NAME))
}

/// The tree of `model m state x to x end`.
fn tree(alloc: Global) -> Result<Tree, NoMemory>
    ensures { IfOk result (λ tree. length tree.nodes ≡ 2) }
{
    tree_of(alloc, refs(alloc)?, tokens(alloc)?)
}

struct NodeRow {
    number: u32,
    node: Node,
    children: &'static [NodeId],
    values: &'static str,
}

const NODE_ROWS: [NodeRow; 2] = [
    NodeRow {
        number: 0,
        node: ROOT,
        children: &[NodeId(1)],
        values: "Some((Name { text: \"m\" }, Span { start: 6, end: 7 })) [(NodeId(0), PropId(1), Child(NodeId(1)))] []",
    },
    NodeRow {
        number: 1,
        node: CHILD,
        children: &[],
        values: "Some((Name { text: \"x\" }, Span { start: 14, end: 15 })) [] [(NodeId(1), PropId(2), Refers(RefId(0)))]",
    },
];

const OFFSETS: [(u32, Option<u32>); 8] = [
    (0, Some(0)),
    (4, Some(0)),
    (5, Some(5)),
    (6, Some(6)),
    (12, Some(8)),
    (23, Some(21)),
    (24, None),
    (u32::MAX, None),
];

fn expect_node(rt: &impl Abort, alloc: Global, tree: &Tree, row: &NodeRow) -> Result<(), Fail> {
    let n = NodeId(row.number);
    assert_eq!(rt; tree.len(), 2);
    assert!(rt; n.0 < tree.len());
    assert_eq!(rt; *tree.node(n), row.node);
    assert_eq!(rt; tree.children(n), row.children);
    let (name, states, next) = (tree.name(n), tree.values(n, STATES), tree.values(n, NEXT));
    assert_eq!(rt;
        format!(in alloc; "{name:?} {states:?} {next:?}")?.as_str(),
        row.values
    );
    Ok(())
}

fn expect_lists(rt: &impl Abort, alloc: Global, tree: &Tree) -> Result<(), Fail> {
    let refs = refs(alloc)?;
    assert_eq!(rt; tree.refs(), refs.as_slice());
    let tokens = tokens(alloc)?;
    assert_eq!(rt; tree.tokens(), tokens.as_slice());
    Ok(())
}

fn expect_token(rt: &impl Abort, tree: &Tree, offset: u32, start: Option<u32>) {
    let found = tree.token_at(offset).map(|token| token.span.start);
    assert_eq!(rt; found, start, "at {offset}");
}

#[test]
fn a_text_has_a_tree(rt: HostRuntime) -> Result<(), Fail> {
    let alloc = rt.alloc();
    let tree = tree(alloc)?;
    for row in NODE_ROWS.iter() {
        expect_node(&rt, alloc, &tree, row)?;
    }
    for (offset, start) in OFFSETS {
        expect_token(&rt, &tree, offset, start);
    }
    expect_lists(&rt, alloc, &tree)
}

fn inside(container: Option<u32>) -> Node {
    Node {
        type_id: MODEL,
        container: container.map(NodeId),
        prop: None,
        span: Span { start: 0, end: 0 },
    }
}

/// Node and property of values in the order in which they are given.
const GIVEN: [(u32, u16); 11] = [
    (1, 0),
    (0, 1),
    (0, 0),
    (1, 1),
    (0, 1),
    (1, 0),
    (0, 0),
    (3, 1),
    (3, 1),
    (1, 0),
    (9, 0),
];

/// A value that begins at its place among those given: of three in a row, the second is a text.
fn value(alloc: Global, place: u32) -> Result<Value, NoMemory> {
    if place % 3 == 1 {
        text(alloc, "a", place, u32::MAX)
    } else {
        let span = Span {
            start: place,
            end: u32::MAX,
        };
        Ok(Value::Number(-7, span))
    }
}

fn given(alloc: Global) -> Result<Vec<Entry>, NoMemory> {
    let mut values = Vec::new(alloc);
    let mut place = 0u32;
    for (node, prop) in GIVEN {
        values.push((NodeId(node), PropId(prop), value(alloc, place)?))?;
        place = place.saturating_add(1);
    }
    Ok(values)
}

/// The last two stand in nodes that there are not.
fn scattered_nodes(alloc: Global) -> Result<Vec<Node>, NoMemory>
    ensures { IfOk result (λ nodes. length nodes.items ≡ 6) }
{
    let containers = [None, Some(0u32), Some(1), Some(0), Some(6), Some(9)];
    Ok(Vec::from_array(alloc, containers.map(inside))?)
}

/// A tree of these six nodes, without tokens.
fn scattered(alloc: Global) -> Result<Tree, NoMemory>
    ensures { IfOk result (λ tree. length tree.nodes ≡ 6) }
{
    let nodes = scattered_nodes(alloc)?;
    let refs = Vec::new(alloc);
    let tokens = Vec::new(alloc);
    Tree::new(alloc, nodes, given(alloc)?, refs, tokens, Some(PropId(1)))
}

fn start(entry: &Entry) -> u32 {
    match &entry.2 {
        Value::Text(_, span) | Value::Number(_, span) => span.start,
        _ => u32::MAX,
    }
}

fn begin_at(entries: &[Entry], starts: &[u32]) -> bool {
    entries.iter().map(start).eq(starts.iter().copied())
}

struct ScatteredRow {
    children: &'static [NodeId],
    first: &'static [u32],
    second: &'static [u32],
    name: Option<u32>,
}

const ALONE: ScatteredRow = ScatteredRow {
    children: &[],
    first: &[],
    second: &[],
    name: None,
};

const SCATTERED_ROWS: [ScatteredRow; 6] = [
    ScatteredRow {
        children: &[NodeId(1), NodeId(3)],
        first: &[2, 6],
        second: &[1, 4],
        name: Some(4),
    },
    ScatteredRow {
        children: &[NodeId(2)],
        first: &[0, 5, 9],
        second: &[3],
        name: None,
    },
    ALONE,
    ScatteredRow {
        children: &[],
        first: &[],
        second: &[7, 8],
        name: None,
    },
    ALONE,
    ALONE,
];

fn expect_values(rt: &impl Abort, tree: &Tree, n: NodeId, row: &ScatteredRow) {
    assert!(rt; n.0 < tree.len());
    let children = tree.children(n) == row.children;
    let first = begin_at(tree.values(n, PropId(0)), row.first);
    let second = begin_at(tree.values(n, PropId(1)), row.second);
    let name = tree.name(n).map(|named| named.1.start) == row.name;
    assert_eq!(rt;
        (children, first, second, name),
        (true, true, true, true),
        "node {}",
        n.0
    );
}

#[test]
fn values_of_a_property_keep_their_order(rt: HostRuntime) -> Result<(), Fail> {
    let alloc = rt.alloc();
    let tree = scattered(alloc)?;
    assert_eq!(rt; tree.len(), 6);
    for (number, row) in SCATTERED_ROWS.iter().enumerate() {
        expect_values(&rt, &tree, NodeId(number as u32), row);
    }
    assert!(rt; tree.token_at(0).is_none());
    Ok(())
}
