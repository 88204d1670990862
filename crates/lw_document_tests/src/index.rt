// What no clause says: that the calls succeed where there is memory, and that an index answers as before where it is refused.
ghost use Rattle.std.specs.Prelude.{◌≡◌, ◌<◌};
ghost use Rattle.lw_index.specs.Lettered.{IsLettered};

use lw_base::{DocId, Name, NoMemory, NodeId, Steps, TypeId, TypeSet};
use lw_index::{Delta, Export, Index, Target};
use std::alloc::Global;
use std::marker::Brand;
use std::process::Abort;
use std::sync::ledger::{Blank, Ledger};
use std::test::Fail;

/// A name, and the numbers of a type and of a node.
type Row = (&'static str, u16, u32);

const ZED: &[Row] = &[("a", 1, 5), ("b", 1, 6), ("a", 1, 3)];

const DOUBLE: &[Row] = &[("a", 1, 7), ("a", 2, 1)];

const ESS: &[Row] = &[("a", 2, 9)];

fn exports(alloc: Global, rows: &[Row]) -> Result<Vec<Export>, NoMemory> {
    let mut exports = Vec::new(alloc);
    for (name, type_id, node) in rows {
        let name = Name::from_text(alloc, name)?;
        exports.push(Export {
            name,
            type_id: TypeId(*type_id),
            node: NodeId(*node),
        })?;
    }
    Ok(exports)
}

/// Sets the document of a number, whose URI is a letter: the greater the number, the less the letter.
fn put(index: &mut Index, alloc: Global, number: u8, rows: &[Row]) -> Result<Delta, NoMemory>
    requires small { number < 26 }
    requires lettered { IsLettered index.old }
    ensures { IsLettered index.new }
{
    let exports = exports(alloc, rows)?;
    let letter = [122 - number];
    match Name::from_bytes(alloc, &letter)? {
        Some(uri) => index.set(DocId(u32::from(number)), &uri, exports),
        None => Err(NoMemory),
    }
}

fn take(index: &mut Index, number: u32) -> Delta
    requires { IsLettered index.old }
    ensures { IsLettered index.new }
{
    index.remove(DocId(number))
}

fn counted<L: Ledger>(blank: Blank, index: &Index, name: &Name, types: &TypeSet) -> Option<Target>
    requires name { blank.name ≡ L.name }
    requires parts { blank.parts ≡ L.parts }
    requires some { 0 < blank.parts }
{
    let (book, share) = blank.open::<L>();
    let mut steps = Steps::new(book, share);
    index.first(name, types, &mut steps)
}

/// The document and the node of the first export, if there is one.
fn first(
    alloc: Global,
    index: &Index,
    name: &str,
    wanted: &[u16],
) -> Result<Option<(u32, u32)>, NoMemory> {
    let name = Name::from_text(alloc, name)?;
    let mut types = TypeSet::new(alloc);
    for number in wanted {
        types.add(TypeId(*number))?;
    }
    Ok(
        match counted::<Brand>(Blank::new(1), index, &name, &types) {
            Some(target) => Some((target.doc.0, target.node.0)),
            None => None,
        },
    )
}

/// Expects the first export of `a` for some sets of types.
fn expect_firsts(
    rt: &impl Abort,
    alloc: Global,
    index: &Index,
    rows: &[(&[u16], Option<(u32, u32)>)],
) -> Result<(), NoMemory> {
    for (types, expected) in rows {
        let found = first(alloc, index, "a", types)?;
        assert!(rt; found == *expected);
    }
    Ok(())
}

/// Expects the rivals of documents by `a` and the type 1.
fn expect_rivals(
    rt: &impl Abort,
    alloc: Global,
    index: &Index,
    rows: &[(u32, &str)],
) -> Result<(), NoMemory> {
    let name = Name::from_text(alloc, "a")?;
    for (number, expected) in rows {
        let found = match index.others(DocId(*number), &name, TypeId(1)) {
            Some(uri) => uri.text(),
            None => "",
        };
        assert_eq!(rt; found, *expected);
    }
    Ok(())
}

#[test]
fn documents_come_and_go(rt: HostRuntime) -> Result<(), Fail> {
    let alloc = rt.alloc();
    let mut index = Index::new(alloc);
    put(&mut index, alloc, 0, ZED)?;
    put(&mut index, alloc, 3, DOUBLE)?;
    put(&mut index, alloc, 7, ESS)?;
    let all: [(&[u16], Option<(u32, u32)>); 4] = [
        (&[1], Some((3, 7))),
        (&[2], Some((7, 9))),
        (&[1, 2], Some((7, 9))),
        (&[3], None),
    ];
    expect_firsts(&rt, alloc, &index, &all)?;
    expect_rivals(&rt, alloc, &index, &[(0, "w"), (3, "z"), (7, "w")])?;
    let gone = take(&mut index, 3);
    assert_eq!(rt; gone.gone.len(), 2);
    assert_eq!(rt; index.of(DocId(3)).len(), 0);
    expect_firsts(&rt, alloc, &index, &[(&[1], Some((0, 3)))])?;
    expect_rivals(&rt, alloc, &index, &[(0, ""), (3, "z")])?;
    Ok(())
}

#[test]
fn a_refusal_changes_nothing(rt: HostRuntime) -> Result<(), Fail> {
    let alloc = rt.alloc();
    let mut index = Index::new(alloc);
    put(&mut index, alloc, 0, ZED)?;
    put(&mut index, alloc, 3, ESS)?;
    match put(&mut index, alloc, 3, DOUBLE) {
        Ok(delta) => {
            assert_eq!(rt; delta.gone.len(), 1);
            expect_firsts(
                &rt,
                alloc,
                &index,
                &[(&[1], Some((3, 7))), (&[2], Some((3, 1)))],
            )?;
        }
        Err(_) => {
            assert_eq!(rt; index.of(DocId(3)).len(), 1);
            expect_firsts(
                &rt,
                alloc,
                &index,
                &[(&[1], Some((0, 3))), (&[2], Some((3, 9)))],
            )?;
        }
    }
    Ok(())
}
