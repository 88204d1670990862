use lw_base::Name;
use lw_io::MemStore;
use lw_load::{LoadFault, load};
use std::alloc::Global;
use std::process::Abort;
use std::test::Fail;

#[test]
fn paths_of_imports(rt: HostRuntime) -> Result<(), Fail> {
    let rows = [
        ("g.langium", "import './j'", "j.langium"),
        ("a/g.langium", "import './j'", "a/j.langium"),
        ("a/b/g.langium", "import '../c/j.langium'", "a/c/j.langium"),
        ("g.langium", "import '../j'", "../j.langium"),
        ("../a/g.langium", "import '../../j'", "../../j.langium"),
        ("/x/g.langium", "import '../../../j'", "/j.langium"),
        ("a/g.langium", "import '/r//s/./t'", "/r/s/t.langium"),
        ("g.langium", "import 'i.langium/'", "i.langium/.langium"),
    ];
    for (importer, text, imported) in rows {
        let files = [(importer, text), (imported, "type T = 't';")];
        let paths = [importer, imported];
        loads(
            &rt,
            rt.alloc(),
            importer,
            files.as_slice(),
            paths.as_slice(),
        )?;
    }
    Ok(())
}

// The files of the root, in load order, are these.
fn loads(
    rt: &impl Abort,
    alloc: Global,
    root: &str,
    files: &[(&str, &str)],
    paths: &[&str],
) -> Result<(), Fail> {
    let mut store = store_of(alloc, files)?;
    let root = Name::from_text(alloc, root)?;
    let loaded = load(alloc, &root, &mut store).ok().ok_or("a grammar")?;
    assert_eq!(rt; loaded.grammar.files.len(), paths.len());
    for (file, wanted) in loaded.grammar.files.as_slice().iter().zip(paths) {
        assert_eq!(rt; file.text(), *wanted);
    }
    Ok(())
}

#[test]
fn each_file_once_in_load_order(rt: HostRuntime) -> Result<(), Fail> {
    let circle = [
        ("i.langium", "grammar I import './j' entry A: 'a' b=B;"),
        (
            "j.langium",
            "grammar J import './i.langium' B: 'b' name=ID; terminal ID: /[a-z]+/; hidden terminal WS: /\\s+/;",
        ),
    ];
    loads(
        &rt,
        rt.alloc(),
        "i.langium",
        circle.as_slice(),
        ["i.langium", "j.langium"].as_slice(),
    )?;
    let deep = [
        (
            "a/./g.langium",
            "grammar G import './b' import './c' R: 'r' x=T;",
        ),
        ("a/c.langium", "import 'b' terminal T: /t/;"),
        ("a/b.langium", "import './d' import 'g' interface B {}"),
        ("a/d.langium", "type D = 'd';"),
    ];
    let order = ["a/./g.langium", "a/b.langium", "a/d.langium", "a/c.langium"];
    loads(
        &rt,
        rt.alloc(),
        "a/./g.langium",
        deep.as_slice(),
        order.as_slice(),
    )
}

#[test]
fn first_fault_in_load_order(rt: HostRuntime) -> Result<(), Fail> {
    let files = [
        ("g.langium", "import './b' import './absent'"),
        ("b.langium", "import './c'"),
        ("c.langium", "type\nD 'd';"),
    ];
    let mut store = store_of(rt.alloc(), files.as_slice())?;
    let root = Name::from_text(rt.alloc(), "g.langium")?;
    match load(rt.alloc(), &root, &mut store) {
        Err(LoadFault::Read(path, _, at)) => {
            assert_eq!(rt; path.text(), "c.langium");
            assert_eq!(rt; (at.line, at.character), (1, 2));
        }
        _ => return Err("a fault of reading".into()),
    }
    Ok(())
}

/// The files of these paths and texts.
fn store_of(alloc: Global, files: &[(&str, &str)]) -> Result<MemStore, Fail> {
    let mut held = Vec::new(alloc);
    for (path, text) in files {
        held.push((
            Name::from_text(alloc, path)?,
            text.as_bytes().to_vec(alloc)?,
        ))?;
    }
    Ok(MemStore::new(held, Vec::new(alloc)))
}
