// Runs in which there is no memory.
ghost use Rattle.std.specs.Prelude.{◌≡◌, ◌<◌};

use lw_base::{Name, NoMemory, Steps};
use lw_commands::{Desk, run};
use lw_io::{MemPatterns, MemSink, MemSource, MemStore, Sink, Wrote};
use std::alloc::Global;
use std::marker::Brand;
use std::sync::ledger::{Blank, Ledger};
use std::test::Fail;

const PATH: &str = "f.langium";

const GRAMMAR: &str =
    "grammar F entry Model: 'model' name=ID; hidden terminal WS: /\\s+/; terminal ID: /[_a-zA-Z][\\w_]*/;";

// What a run wrote, and its status.
#[derive(Drop)]
struct Ran {
    code: u8,
    out: Vec<u8>,
}

// The store that holds the grammar, where there is one.
fn store_of(alloc: Global, grammar: Option<&str>) -> Result<MemStore, NoMemory> {
    let mut files = Vec::new(alloc);
    if let Some(grammar) = grammar {
        let bytes = grammar.as_bytes().to_vec(alloc)?;
        files.push((Name::from_text(alloc, PATH)?, bytes))?;
    }
    Ok(MemStore::new(files, Vec::new(alloc)))
}

// `check` of a document.
fn run_counted<N: Sink, L: Ledger>(
    alloc: Global,
    blank: Blank,
    grammar: Option<&str>,
    notes: &mut N,
) -> Result<Ran, NoMemory>
    requires name { blank.name ≡ L.name }
    requires parts { blank.parts ≡ L.parts }
    requires some { 0 < blank.parts }
{
    let (book, share) = blank.open::<L>();
    let mut steps = Steps::new(book, share);
    let words = vec![in alloc;
        Name::from_text(alloc, "check")?,
        Name::from_text(alloc, PATH)?,
    ]?;
    let text = b"model m".to_vec(alloc)?;
    let mut source = MemSource::new(text, Vec::new(alloc), Vec::new(alloc));
    let mut out = MemSink::new(alloc, Vec::new(alloc));
    let mut store = store_of(alloc, grammar)?;
    let mut patterns = MemPatterns::new(Vec::new(alloc));
    let mut desk = Desk::Empty;
    let status = run(
        alloc,
        &words,
        &mut source,
        &mut out,
        notes,
        &mut store,
        &mut patterns,
        &mut desk,
        &mut steps,
    );
    Ok(Ran {
        code: status.code,
        out: out.taken().to_vec(alloc)?,
    })
}

fn run_noted(alloc: Global, notes: &mut MemSink) -> Result<Ran, NoMemory> {
    run_counted::<MemSink, Brand>(alloc, Blank::new(1), Some(GRAMMAR), notes)
}

// Each allocation of this run may be made to fail in turn.
#[test]
fn the_first_document_is_ok(rt: HostRuntime) -> Result<(), Fail> {
    let alloc = rt.alloc();
    let mut notes = MemSink::new(alloc, Vec::new(alloc));
    let ran = run_noted(alloc, &mut notes)?;
    assert_eq!(rt; ran.code, 0);
    assert_eq!(rt; ran.out.as_slice(), b"ok\n".as_slice());
    assert!(rt; notes.taken().is_empty());
    Ok(())
}

// Notes for which there is never memory.
#[derive(Drop)]
struct NoRoom {
    calls: u64,
}

impl Sink for NoRoom {
    ghost use Rattle.std.specs.Prelude.{None};

    ghost written = { λ s. None };

    ghost count = { λ s. 0 };

    fn faults(&self) -> u64 {
        0
    }

    fn write(&mut self, bytes: &[u8]) -> Wrote {
        self.calls = self.calls.saturating_add(1);
        Wrote::NoMemory
    }
}

// The status is 7 then, and no second note is tried.
#[test]
fn a_note_without_memory_is_the_last(rt: HostRuntime) -> Result<(), Fail> {
    let alloc = rt.alloc();
    let mut notes = NoRoom { calls: 0 };
    let ran = run_counted::<NoRoom, Brand>(alloc, Blank::new(1), None, &mut notes)?;
    assert_eq!(rt; ran.code, 7);
    assert_eq!(rt; notes.calls, 1);
    Ok(())
}
