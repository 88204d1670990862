// What no clause says: that the calls succeed where there is memory, and that an index answers as before where it is refused.
ghost use Rattle.std.specs.Prelude.{◌<◌, ◌^◌, length};

use lw_base::{DocId, NoMemory, NodeId, RefId};
use lw_index::refs::{RefIndex, SlotId};
use lw_index::{Answer, Target};
use std::alloc::Global;
use std::process::Abort;
use std::test::Fail;

/// A document and a node of it, and the references that are to lead there, each by its document and its number.
type Asked = (u32, u32, &'static [(u32, u32)]);

const TWO: Answer = Answer::Found(Target {
    doc: DocId(7),
    node: NodeId(2),
});

const THREE: Answer = Answer::Found(Target {
    doc: DocId(7),
    node: NodeId(3),
});

const ELSEWHERE: Answer = Answer::Found(Target {
    doc: DocId(1),
    node: NodeId(2),
});

const MANY: &[Answer] = &[TWO, Answer::Missing, ELSEWHERE, TWO, THREE];

const FEW: &[Answer] = &[THREE, TWO];

const ITSELF: &[Answer] = &[Answer::Missing, TWO];

const ALL: &[Asked] = &[
    (7, 2, &[(1, 1), (3, 0), (3, 3), (7, 1)]),
    (7, 3, &[(1, 0), (3, 4)]),
    (1, 2, &[(3, 2)]),
    (1, 3, &[]),
    (3, 2, &[]),
];

const CHANGED: &[Asked] = &[
    (7, 2, &[(1, 1), (3, 1), (7, 1)]),
    (7, 3, &[(1, 0), (3, 0)]),
    (1, 2, &[]),
];

const REMOVED: &[Asked] = &[(7, 2, &[(1, 1), (7, 1)]), (7, 3, &[(1, 0)]), (1, 2, &[])];

const AGAIN: &[Asked] = &[(7, 2, &[(1, 1), (3, 1), (7, 1)]), (7, 3, &[(1, 0)])];

const NOTHING: &[Asked] = &[(7, 2, &[]), (7, 3, &[]), (1, 2, &[])];

fn put(index: &mut RefIndex, alloc: Global, doc: u32, answers: &[Answer]) -> Result<(), NoMemory>
    requires { length answers.now < 2 ^ 32 }
{
    let answers = Vec::from_slice(alloc, answers)?;
    index.set(DocId(doc), answers)
}

/// An index of three documents.
fn three(alloc: Global) -> Result<RefIndex, NoMemory> {
    let mut index = RefIndex::new(alloc);
    put(&mut index, alloc, 7, ITSELF)?;
    put(&mut index, alloc, 3, MANY)?;
    put(&mut index, alloc, 1, FEW)?;
    Ok(index)
}

/// Expects these references to lead to a node, and no others.
fn expect_one(rt: &impl Abort, index: &RefIndex, asked: &Asked) -> Result<(), NoMemory> {
    let target = Target {
        doc: DocId(asked.0),
        node: NodeId(asked.1),
    };
    let found = index.of(target)?;
    assert_eq!(rt; found.len(), asked.2.len());
    for (slot, (doc, reference)) in found.as_slice().iter().zip(asked.2) {
        let wanted = SlotId {
            doc: DocId(*doc),
            reference: RefId(*reference),
        };
        assert_eq!(rt; *slot, wanted);
        let answer = index.answer(slot.doc, slot.reference);
        assert_eq!(rt; answer, Some(Answer::Found(target)));
    }
    Ok(())
}

fn expect(rt: &impl Abort, index: &RefIndex, rows: &[Asked]) -> Result<(), NoMemory> {
    for asked in rows {
        expect_one(rt, index, asked)?;
    }
    Ok(())
}

#[test]
fn references_come_and_go(rt: HostRuntime) -> Result<(), Fail> {
    let alloc = rt.alloc();
    let mut index = three(alloc)?;
    expect(&rt, &index, ALL)?;
    assert_eq!(rt; index.answers(DocId(3)), MANY);
    assert_eq!(rt; index.answer(DocId(3), RefId(1)), Some(Answer::Missing));
    assert_eq!(rt; index.answer(DocId(3), RefId(5)), None);
    assert_eq!(rt; index.answer(DocId(4), RefId(0)), None);
    put(&mut index, alloc, 3, FEW)?;
    expect(&rt, &index, CHANGED)?;
    index.remove(DocId(3));
    index.remove(DocId(4));
    assert_eq!(rt; index.answers(DocId(3)).len(), 0);
    expect(&rt, &index, REMOVED)?;
    put(&mut index, alloc, 3, ITSELF)?;
    expect(&rt, &index, AGAIN)?;
    index.clear();
    expect(&rt, &index, NOTHING)?;
    Ok(())
}

#[test]
fn a_refusal_changes_nothing(rt: HostRuntime) -> Result<(), Fail> {
    let alloc = rt.alloc();
    let mut index = three(alloc)?;
    match put(&mut index, alloc, 3, FEW) {
        Ok(()) => expect(&rt, &index, CHANGED)?,
        Err(_) => expect(&rt, &index, ALL)?,
    }
    Ok(())
}
