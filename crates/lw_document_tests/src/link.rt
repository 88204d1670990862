// What no clause says: that the calls succeed where there is memory, and where the references of a tree that was written by hand lead.
ghost use Rattle.std.specs.Prelude.{◌≡◌, ◌<◌, [], Some, IfOk, All, length};
ghost use Rattle.lw_grammar.specs.Size.{size};
ghost use Rattle.lw_grammar.specs.declared.grammar.Grammar.{Grammar as AGrammar};
ghost use Rattle.lw_numbers.specs.Numbering.{type_names};
ghost use Rattle.lw_scoping.specs.Outward.{ContainersComeFirst};
ghost use Rattle.lw_types.specs.Inferred.{AreTypesOf};
ghost use Rattle.lw_index.specs.Lettered.{IsLettered};
ghost use Rattle.lw_reading.specs.Known.{HasKnownTypes, HasOneRoot};

use lw_base::{DocId, Items, Name, NoMemory, NodeId, PropId, Span, Steps, TypeId};
use lw_grammar::{Grammar, Interface};
use lw_index::{Answer, Delta, Export, Index, Target};
use lw_link::{answers, answers_alone, entries, finds, visible};
use lw_symbols::Locals;
use lw_tree::{Node, Reference, Tree, Value};
use lw_types::{Types, infer};
use std::alloc::Global;
use std::marker::Brand;
use std::process::Abort;
use std::sync::ledger::{Blank, Ledger};
use std::test::Fail;

const SOMEWHERE: Span = Span { start: 0, end: 0 };

// ---- `interface Model { } interface Part { } interface State extends Part { } interface Event { }`

const MODEL: TypeId = TypeId(0);

const PART: TypeId = TypeId(1);

const STATE: TypeId = TypeId(2);

const EVENT: TypeId = TypeId(3);

fn interface(alloc: Global, name: &str, above: Option<&str>) -> Result<Interface, NoMemory>
    ensures name { IfOk result (λ i. i.name ≡ name.now) }
    ensures empty { IfOk result (λ i. i.attributes ≡ []) }
{
    let mut extended = Vec::new(alloc);
    if let Some(above) = above {
        extended.push((Name::from_text(alloc, above)?, SOMEWHERE))?;
    }
    Ok(Interface {
        name: Name::from_text(alloc, name)?,
        file: 0,
        span: SOMEWHERE,
        above: Items::from_vec(extended),
        attributes: Items::new(alloc),
    })
}

fn grammar(alloc: Global) -> Result<Grammar, NoMemory>
    ensures small { IfOk result (λ g. size g ≡ 4) }
    ensures types { IfOk result (λ g. length (type_names g) ≡ 4) }
{
    let model = interface(alloc, "Model", None)?;
    let part = interface(alloc, "Part", None)?;
    let state = interface(alloc, "State", Some("Part"))?;
    let event = interface(alloc, "Event", None)?;
    Ok(Grammar {
        name: Name::from_text(alloc, "parts")?,
        files: Items::new(alloc),
        rules: Items::new(alloc),
        terminals: Items::new(alloc),
        interfaces: Items::from_vec(vec![in alloc; model, part, state, event]?),
        unions: Items::new(alloc),
        imports: Items::new(alloc),
    })
}

fn types(alloc: Global) -> Result<Types, NoMemory>
    ensures { IfOk result (λ types. (g : AGrammar) × AreTypesOf g types × (length (type_names g) ≡ 4)) }
{
    let g = grammar(alloc)?;
    infer(alloc, &g).map_err(|_| NoMemory)
}

// ---- `model m { part x { event x; part y { part y uses .. } } state z }`: the model is 0, the part x 1, the event x 2, the outer part y 3,
// the inner one 4, and the state z 5.

const NAME: PropId = PropId(0);

const PARTS: PropId = PropId(1);

const USES: PropId = PropId(2);

const ROOT: Node = Node {
    type_id: MODEL,
    container: None,
    prop: None,
    span: SOMEWHERE,
};

fn inside(container: u32, type_id: TypeId) -> Node
    ensures { result ≡ record {
      type_id = type_id;
      container = Some (record { 0 = container });
      prop = Some (record { 0 = 1 });
      span = record { start = 0; end = 0 };
    } }
{
    Node {
        type_id,
        container: Some(NodeId(container)),
        prop: Some(PARTS),
        span: SOMEWHERE,
    }
}

/// The names of the first nodes, in their order.
fn named(alloc: Global, names: &[&str]) -> Result<Vec<(NodeId, PropId, Value)>, NoMemory> {
    let mut values = Vec::new(alloc);
    for (name, n) in names.iter().zip(0..u32::MAX) {
        let name = Name::from_text(alloc, name)?;
        values.push((NodeId(n), NAME, Value::Text(name, SOMEWHERE)))?;
    }
    Ok(values)
}

fn uses(alloc: Global, owner: u32, want: TypeId, name: &str) -> Result<Reference, NoMemory>
    requires { want.0 < 4 }
    ensures { IfOk result (λ r. (r.owner.0 ≡ owner) × (r.want.0 < 4)) }
{
    Ok(Reference {
        owner: NodeId(owner),
        prop: USES,
        want,
        name: Name::from_text(alloc, name)?,
        span: SOMEWHERE,
    })
}

/// Those of the inner part y.
fn references(alloc: Global) -> Result<Vec<Reference>, NoMemory>
    ensures { IfOk result (λ refs. All (λ r. (r.owner.0 < 6) × (r.want.0 < 4)) refs.items) }
{
    let shadowing = uses(alloc, 4, PART, "y")?;
    let beside_an_event = uses(alloc, 4, PART, "x")?;
    let of_a_lower_type = uses(alloc, 4, PART, "z")?;
    let exported_twice = uses(alloc, 4, PART, "q")?;
    let own_root = uses(alloc, 4, MODEL, "m")?;
    let of_no_such_type = uses(alloc, 4, PART, "w")?;
    Ok(vec![in alloc;
        shadowing,
        beside_an_event,
        of_a_lower_type,
        exported_twice,
        own_root,
        of_no_such_type,
    ]?)
}

fn tree(alloc: Global) -> Result<Tree, NoMemory>
    ensures nodes { IfOk result (λ tree. length tree.nodes ≡ 6) }
    ensures outwards { IfOk result ContainersComeFirst }
    ensures root { IfOk result HasOneRoot }
    ensures types { IfOk result (λ tree. All (λ node. node.type_id.0 < 4) tree.nodes) }
    ensures refs { IfOk result (λ tree. All (λ r. (r.owner.0 < 6) × (r.want.0 < 4)) tree.refs) }
{
    let nodes = vec![in alloc;
        ROOT,
        inside(0, PART),
        inside(1, EVENT),
        inside(1, PART),
        inside(3, PART),
        inside(0, STATE),
    ]?;
    let values = named(alloc, &["m", "x", "x", "y", "y", "z"])?;
    let refs = references(alloc)?;
    Tree::new(alloc, nodes, values, refs, Vec::new(alloc), Some(NAME))
}

// ---- `model c state s to x end`: the model is 0, and the state 1.

fn user(alloc: Global) -> Result<Tree, NoMemory>
    ensures nodes { IfOk result (λ tree. length tree.nodes ≡ 2) }
    ensures outwards { IfOk result ContainersComeFirst }
    ensures types { IfOk result (λ tree. All (λ node. node.type_id.0 < 4) tree.nodes) }
    ensures refs { IfOk result (λ tree. All (λ r. (r.owner.0 < 2) × (r.want.0 < 4)) tree.refs) }
{
    let nodes = vec![in alloc; ROOT, inside(0, STATE)]?;
    let values = named(alloc, &["c", "s"])?;
    let to = uses(alloc, 1, STATE, "x")?;
    let refs = vec![in alloc; to]?;
    Tree::new(alloc, nodes, values, refs, Vec::new(alloc), Some(NAME))
}

// ---- the index

/// A name, and the numbers of a type and of a node.
type Row = (&'static str, TypeId, u32);

fn exports(alloc: Global, rows: &[Row]) -> Result<Vec<Export>, NoMemory> {
    let mut exports = Vec::new(alloc);
    for (name, type_id, node) in rows {
        exports.push(Export {
            name: Name::from_text(alloc, name)?,
            type_id: *type_id,
            node: NodeId(*node),
        })?;
    }
    Ok(exports)
}

/// Sets the document of a number, whose URI is a letter: the greater the number, the less the letter.
fn put(
    index: &mut Index,
    alloc: Global,
    number: u8,
    exports: Vec<Export>,
) -> Result<Delta, NoMemory>
    requires small { number < 26 }
    requires lettered { IsLettered index.old }
    ensures { IsLettered index.new }
{
    let letter = [122 - number];
    match Name::from_bytes(alloc, &letter)? {
        Some(uri) => index.set(DocId(u32::from(number)), &uri, exports),
        None => Err(NoMemory),
    }
}

/// The tree is the document b, between a and c.
fn index(alloc: Global, tree: &Tree) -> Result<Index, NoMemory>
    requires { 0 < length tree.now.nodes }
{
    let a = exports(alloc, &[("q", EVENT, 1), ("q", PART, 2), ("w", EVENT, 3)])?;
    let c = exports(alloc, &[("q", PART, 1), ("m", MODEL, 0)])?;
    let mut index = Index::new(alloc);
    put(&mut index, alloc, 23, c)?;
    put(&mut index, alloc, 24, entries(alloc, tree)?)?;
    put(&mut index, alloc, 25, a)?;
    Ok(index)
}

// ---- where they lead

fn counted<L: Ledger>(
    blank: Blank,
    alloc: Global,
    tree: &Tree,
    doc: DocId,
    index: &Index,
    types: &Types,
) -> Result<Vec<Answer>, NoMemory>
    requires name { blank.name ≡ L.name }
    requires parts { blank.parts ≡ L.parts }
    requires some { 0 < blank.parts }
    requires outwards { ContainersComeFirst tree.now }
    requires owners { All (λ r. r.owner.0 < length tree.now.nodes) tree.now.refs }
    requires known { (g : AGrammar) × AreTypesOf g types.now × HasKnownTypes g tree.now }
{
    let locals = Locals::of_tree(alloc, tree)?;
    let (book, share) = blank.open::<L>();
    let mut steps = Steps::new(book, share);
    answers(alloc, tree, &locals, doc, index, types, &mut steps)
}

fn leading(alloc: Global, tree: &Tree, doc: u32, index: &Index) -> Result<Vec<Answer>, NoMemory>
    requires outwards { ContainersComeFirst tree.now }
    requires owners { All (λ r. r.owner.0 < length tree.now.nodes) tree.now.refs }
    requires nodes { All (λ node. node.type_id.0 < 4) tree.now.nodes }
    requires wants { All (λ r. r.want.0 < 4) tree.now.refs }
{
    let types = types(alloc)?;
    counted::<Brand>(Blank::new(1), alloc, tree, DocId(doc), index, &types)
}

fn leading_alone(alloc: Global, tree: &Tree) -> Result<Vec<Answer>, NoMemory>
    requires outwards { ContainersComeFirst tree.now }
    requires root { HasOneRoot tree.now }
    requires owners { All (λ r. r.owner.0 < length tree.now.nodes) tree.now.refs }
    requires nodes { All (λ node. node.type_id.0 < 4) tree.now.nodes }
    requires wants { All (λ r. r.want.0 < 4) tree.now.refs }
{
    let types = types(alloc)?;
    let locals = Locals::of_tree(alloc, tree)?;
    answers_alone(alloc, tree, &locals, &types)
}

/// For each reference of a tree how many names are visible where it stands, and whether it leads somewhere by its own.
fn names_and_leads(
    alloc: Global,
    tree: &Tree,
    doc: u32,
    index: &Index,
) -> Result<Vec<(usize, bool)>, NoMemory>
    requires outwards { ContainersComeFirst tree.now }
    requires root { HasOneRoot tree.now }
    requires owners { All (λ r. r.owner.0 < length tree.now.nodes) tree.now.refs }
    requires wants { All (λ r. r.want.0 < 4) tree.now.refs }
{
    let types = types(alloc)?;
    let locals = Locals::of_tree(alloc, tree)?;
    let mut found = Vec::new(alloc);
    for reference in tree.refs() {
        let names = visible(alloc, tree, &locals, DocId(doc), reference, index, &types)?;
        let leads = finds(tree, &locals, DocId(doc), reference, index, &types);
        found.push((names.len(), leads))?;
    }
    Ok(found)
}

const fn at(doc: u32, node: u32) -> Answer {
    Answer::Found(Target {
        doc: DocId(doc),
        node: NodeId(node),
    })
}

#[test]
fn lead_outwards_and_then_to_exports(rt: HostRuntime) -> Result<(), Fail> {
    let alloc = rt.alloc();
    let tree = tree(alloc)?;
    let index = index(alloc, &tree)?;
    let found = leading(alloc, &tree, 24, &index)?;
    let expected = [
        at(24, 4),
        at(24, 1),
        at(24, 5),
        at(25, 2),
        at(24, 0),
        Answer::Missing,
    ];
    assert!(rt; found.as_slice() == expected.as_slice());
    Ok(())
}

#[test]
fn lead_outwards_and_then_to_the_root_in_a_document_that_is_alone(
    rt: HostRuntime,
) -> Result<(), Fail> {
    let alloc = rt.alloc();
    let tree = tree(alloc)?;
    let found = leading_alone(alloc, &tree)?;
    let expected = [
        at(0, 4),
        at(0, 1),
        at(0, 5),
        Answer::Missing,
        at(0, 0),
        Answer::Missing,
    ];
    assert!(rt; found.as_slice() == expected.as_slice());
    Ok(())
}

#[test]
fn names_that_fit_are_visible(rt: HostRuntime) -> Result<(), Fail> {
    let alloc = rt.alloc();
    let tree = tree(alloc)?;
    let index = index(alloc, &tree)?;
    let found = names_and_leads(alloc, &tree, 24, &index)?;
    let part = (4, true);
    let expected = [part, part, part, part, (1, true), (4, false)];
    assert!(rt; found.as_slice() == expected.as_slice());
    Ok(())
}

/// Sets the document m anew, and expects where the one reference of the document c leads then.
fn expect_with(
    rt: &impl Abort,
    alloc: Global,
    index: &mut Index,
    rows: &[Row],
    expected: Answer,
) -> Result<(), NoMemory>
    requires { IsLettered index.old }
    ensures { IsLettered index.new }
{
    let tree = user(alloc)?;
    let exports = exports(alloc, rows)?;
    put(index, alloc, 13, exports)?;
    let found = leading(alloc, &tree, 23, index)?;
    assert!(rt; found.as_slice() == [expected].as_slice());
    Ok(())
}

#[test]
fn a_document_without_a_tree_exports_nothing(rt: HostRuntime) -> Result<(), Fail> {
    let alloc = rt.alloc();
    let tree = user(alloc)?;
    let mut index = Index::new(alloc);
    put(&mut index, alloc, 23, entries(alloc, &tree)?)?;
    let whole: [Row; 2] = [("m", MODEL, 0), ("x", STATE, 1)];
    expect_with(&rt, alloc, &mut index, &whole, at(13, 1))?;
    expect_with(&rt, alloc, &mut index, &[], Answer::Missing)?;
    expect_with(&rt, alloc, &mut index, &whole, at(13, 1))?;
    Ok(())
}

#[test]
fn the_root_and_what_stands_in_it_are_exported(rt: HostRuntime) -> Result<(), Fail> {
    let alloc = rt.alloc();
    let tree = tree(alloc)?;
    let found = entries(alloc, &tree)?;
    let expected = exports(alloc, &[("m", MODEL, 0), ("x", PART, 1), ("z", STATE, 5)])?;
    assert!(rt; found.as_slice() == expected.as_slice());
    Ok(())
}
