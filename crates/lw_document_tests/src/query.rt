// What no clause says: that the calls succeed where there is memory, and what they answer over three documents that were written by hand.
ghost use Rattle.std.specs.Prelude.{◌≡◌, ◌<◌, ◌^◌, Some, length, slice_get};
ghost use Rattle.std.specs.Option.{option_map};
ghost use Rattle.lw_index.specs.Led.{answers_in};

use lw_base::{DocId, Name, NoMemory, NodeId, PropId, RefId, Span, TypeId};
use lw_index::refs::RefIndex;
use lw_index::{Answer, Target};
use lw_query::{Spot, Views, definition, references};
use lw_tree::{Node, Reference, Tree, Value};
use std::alloc::Global;
use std::process::Abort;
use std::test::Fail;

#[derive(Drop)]
struct Document {
    uri: Name,
    tree: Tree,
    ghost few: { length tree.refs < 2 ^ 32 },
}

#[derive(Drop)]
struct Documents {
    rows: Vec<Document>,
    index: RefIndex,
}

impl Views for Documents {
    ghost tree_at = { λ s n. option_map (λ d. d.tree) (slice_get s.rows.items n) };

    ghost answers_at = { λ s n. answers_in s.index n };

    ghost Stands = { λ s n address. option_map (λ d. d.uri) (slice_get s.rows.items n) ≡ Some address };

    fn tree(&self, doc: DocId) -> Option<&Tree> {
        match self.rows.get(doc.0 as usize) {
            Some(document) => Some(&document.tree),
            None => None,
        }
    }

    fn answer(&self, doc: DocId, reference: RefId) -> Option<Answer> {
        self.index.answer(doc, reference)
    }

    fn uri(&self, doc: DocId) -> Option<&Name> {
        match self.rows.get(doc.0 as usize) {
            Some(document) => Some(&document.uri),
            None => None,
        }
    }
}

// ---- the documents: at a stands `model m part xyz uses xyz end`, whose model is node 0 and whose part is node 1; at b and c stand models with
// references to these, at c two of them side by side, at b not in their order. Their numbers are 1, 2 and 0.

const NAME: PropId = PropId(0);

const MODEL: Node = Node {
    type_id: TypeId(0),
    container: None,
    prop: None,
    span: Span { start: 0, end: 29 },
};

const PART: Node = Node {
    type_id: TypeId(1),
    container: Some(NodeId(0)),
    prop: Some(PropId(1)),
    span: Span { start: 8, end: 25 },
};

/// The first byte of something and the one behind its last.
type Place = (u32, u32);

struct Written {
    uri: &'static str,
    number: u32,
    names: &'static [Place],
    /// Each with the node of the document at a that it leads to; no such node stands for nothing.
    uses: &'static [(Place, u32)],
}

const WRITTEN: [Written; 3] = [
    Written {
        uri: "c",
        number: 0,
        names: &[(6, 9)],
        uses: &[((22, 25), 1), ((25, 26), 0)],
    },
    Written {
        uri: "a",
        number: 1,
        names: &[(6, 7), (13, 16)],
        uses: &[((22, 25), 1)],
    },
    Written {
        uri: "b",
        number: 2,
        names: &[(6, 8)],
        uses: &[((30, 33), 1), ((10, 13), 1), ((40, 43), 9)],
    },
];

fn names(alloc: Global, places: &[Place]) -> Result<Vec<(NodeId, PropId, Value)>, NoMemory> {
    let mut values = Vec::new(alloc);
    for ((start, end), n) in places.iter().zip(0..u32::MAX) {
        let span = Span {
            start: *start,
            end: *end,
        };
        values.push((
            NodeId(n),
            NAME,
            Value::Text(Name::from_text(alloc, "xyz")?, span),
        ))?;
    }
    Ok(values)
}

fn uses(alloc: Global, rows: &[(Place, u32)]) -> Result<Vec<Reference>, NoMemory> {
    let mut refs = Vec::new(alloc);
    for ((start, end), _) in rows {
        refs.push(Reference {
            owner: NodeId(0),
            prop: PropId(2),
            want: TypeId(1),
            name: Name::from_text(alloc, "xyz")?,
            span: Span {
                start: *start,
                end: *end,
            },
        })?;
    }
    Ok(refs)
}

fn answers(alloc: Global, rows: &[(Place, u32)]) -> Result<Vec<Answer>, NoMemory> {
    let mut answers = Vec::new(alloc);
    for (_, node) in rows {
        answers.push(if *node < 2 {
            Answer::Found(Target {
                doc: DocId(1),
                node: NodeId(*node),
            })
        } else {
            Answer::Missing
        })?;
    }
    Ok(answers)
}

fn tree(alloc: Global, written: &Written) -> Result<Tree, NoMemory> {
    let nodes = vec![in alloc; MODEL, PART]?;
    let values = names(alloc, written.names)?;
    let refs = uses(alloc, written.uses)?;
    Tree::new(alloc, nodes, values, refs, Vec::new(alloc), Some(NAME))
}

fn one_document(alloc: Global, written: &Written) -> Result<Document, NoMemory> {
    let tree = tree(alloc, written)?;
    if tree.refs().len() > 9 {
        return Err(NoMemory);
    }
    let uri = Name::from_text(alloc, written.uri)?;
    Ok(Document { uri, tree })
}

fn link(alloc: Global, index: &mut RefIndex, written: &Written) -> Result<(), NoMemory> {
    let answers = answers(alloc, written.uses)?;
    if answers.len() > 9 {
        return Err(NoMemory);
    }
    index.set(DocId(written.number), answers)
}

fn all_documents(alloc: Global) -> Result<Documents, NoMemory> {
    let mut rows = Vec::new(alloc);
    let mut index = RefIndex::new(alloc);
    for written in &WRITTEN {
        rows.push(one_document(alloc, written)?)?;
        link(alloc, &mut index, written)?;
    }
    Ok(Documents { rows, index })
}

// ---- what is asked

/// The number of a document, the first byte and the one behind the last.
type Bytes = (u32, u32, u32);

/// The number of a document and an offset, where the name stands that is meant there, and where it is used. No place stands for nothing.
type Row = (u32, u32, &'static [Bytes], &'static [Bytes]);

const NOTHING: &[Bytes] = &[];

const OF_PART: &[Bytes] = &[(1, 22, 25), (2, 10, 13), (2, 30, 33), (0, 22, 25)];

/// Inside a word, at its end, where two stand side by side, between words, where nothing is, and in no document.
const ROWS: [Row; 14] = [
    (1, 13, &[(1, 13, 16)], OF_PART),
    (1, 16, &[(1, 13, 16)], OF_PART),
    (1, 24, &[(1, 13, 16)], OF_PART),
    (0, 22, &[(1, 13, 16)], OF_PART),
    (0, 25, &[(1, 6, 7)], &[(0, 25, 26)]),
    (0, 26, &[(1, 6, 7)], &[(0, 25, 26)]),
    (0, 7, &[(0, 6, 9)], NOTHING),
    (2, 33, &[(1, 13, 16)], OF_PART),
    (2, 8, &[(2, 6, 8)], NOTHING),
    (1, 12, NOTHING, NOTHING),
    (1, 17, NOTHING, NOTHING),
    (2, 41, NOTHING, NOTHING),
    (2, 43, NOTHING, NOTHING),
    (3, 6, NOTHING, NOTHING),
];

fn bytes_of(spot: &Spot) -> Bytes {
    (spot.doc.0, spot.span.start, spot.span.end)
}

fn expect(rt: &impl Abort, row: &Row, found: &[Spot], first: &[Bytes], others: &[Bytes]) {
    let expected = first.iter().chain(others.iter());
    assert!(rt;
        found.len() == first.len() + others.len(),
        "at {} of {}",
        row.1,
        row.0
    );
    for (spot, bytes) in found.iter().zip(expected) {
        assert!(rt; bytes_of(spot) == *bytes, "at {} of {}", row.1, row.0);
    }
}

/// What is answered, with the name or without. Nothing stands for no place.
fn spots(
    alloc: Global,
    documents: &Documents,
    row: &Row,
    declaration: bool,
) -> Result<Vec<Spot>, NoMemory> {
    let found = references(
        alloc,
        documents,
        &documents.index,
        DocId(row.0),
        row.1,
        declaration,
    )?;
    match found {
        Some(spots) => Ok(Vec::from_slice(alloc, spots.as_slice())?),
        None => Ok(Vec::new(alloc)),
    }
}

fn expect_row(
    rt: &impl Abort,
    alloc: Global,
    documents: &Documents,
    row: &Row,
) -> Result<(), NoMemory> {
    match definition(documents, DocId(row.0), row.1) {
        Some(spot) => expect(rt, row, &[spot], row.2, NOTHING),
        None => expect(rt, row, &[], row.2, NOTHING),
    }
    let all = spots(alloc, documents, row, true)?;
    expect(rt, row, all.as_slice(), row.2, row.3);
    let used = spots(alloc, documents, row, false)?;
    expect(rt, row, used.as_slice(), NOTHING, row.3);
    Ok(())
}

#[test]
fn definitions_and_references(rt: HostRuntime) -> Result<(), Fail> {
    let alloc = rt.alloc();
    let documents = all_documents(alloc)?;
    for row in &ROWS {
        expect_row(&rt, alloc, &documents, row)?;
    }
    Ok(())
}
