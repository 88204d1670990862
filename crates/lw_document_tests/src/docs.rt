// What no clause says: that the calls succeed where there is memory. A table of changes, each with the document that comes next after it.
use lw_base::{Name, NoMemory};
use lw_docs::Docs;
use lw_machine::State;
use lw_text::TextDoc;
use std::alloc::Global;
use std::test::Fail;

/// An address, the state that its document takes, or None where it goes, and the address of the document that is next then.
type Row = (&'static str, Option<State>, &'static str);

const ROWS: &[Row] = &[
    ("a", Some(State::Parsed), "b"),
    ("b", Some(State::Validated), "c"),
    ("c", Some(State::Linked), "a"),
    ("a", Some(State::IndexedReferences), "c"),
    ("c", None, "a"),
    ("a", Some(State::Validated), ""),
    ("b", Some(State::ComputedScopes), "b"),
];

/// Takes a document in, and answers its number.
fn put(docs: &mut Docs, alloc: Global, uri: &str) -> Result<u32, NoMemory> {
    let uri = Name::from_text(alloc, uri)?;
    let Ok(text) = TextDoc::new(alloc, uri.copy(alloc)?) else {
        return Err(NoMemory);
    };
    if docs.find(&uri).is_some() {
        return Err(NoMemory);
    }
    match docs.add(uri, text, None, false) {
        Ok(d) => Ok(d.0),
        Err(_) => Err(NoMemory),
    }
}

fn turn(docs: &mut Docs, alloc: Global, uri: &str, state: Option<State>) -> Result<(), NoMemory> {
    let uri = Name::from_text(alloc, uri)?;
    if let Some(d) = docs.find(&uri) {
        match state {
            Some(state) => docs.set_state(d, state),
            None => {
                docs.take_out(d);
            }
        }
    }
    Ok(())
}

fn next(docs: &Docs) -> &str {
    match docs.least() {
        Some(d) => docs.doc(d).uri.text(),
        None => "",
    }
}

#[test]
fn the_least_goes_first(rt: HostRuntime) -> Result<(), Fail> {
    let alloc = rt.alloc();
    let mut docs = Docs::new(alloc);
    for uri in ["b", "c", "a"] {
        put(&mut docs, alloc, uri)?;
    }
    assert_eq!(rt; next(&docs), "a");
    for (uri, state, expected) in ROWS {
        turn(&mut docs, alloc, uri, *state)?;
        assert_eq!(rt; next(&docs), *expected);
    }
    Ok(())
}

#[test]
fn numbers_are_used_again(rt: HostRuntime) -> Result<(), Fail> {
    let alloc = rt.alloc();
    let mut docs = Docs::new(alloc);
    for (uri, number) in [("b", 0), ("c", 1), ("a", 2)] {
        assert!(rt; put(&mut docs, alloc, uri)? == number);
    }
    turn(&mut docs, alloc, "c", None)?;
    assert!(rt; put(&mut docs, alloc, "d")? == 1);
    assert!(rt; put(&mut docs, alloc, "e")? == 3);
    let mut uris = String::new(alloc);
    for (uri, _) in docs.uris() {
        uris.push_str(uri.text())?;
    }
    assert_eq!(rt; uris.as_str(), "abde");
    Ok(())
}

#[test]
fn a_refusal_changes_nothing(rt: HostRuntime) -> Result<(), Fail> {
    let alloc = rt.alloc();
    let mut docs = Docs::new(alloc);
    put(&mut docs, alloc, "b")?;
    match put(&mut docs, alloc, "a") {
        Ok(_) => assert_eq!(rt; next(&docs), "a"),
        Err(_) => assert_eq!(rt; next(&docs), "b"),
    }
    Ok(())
}
