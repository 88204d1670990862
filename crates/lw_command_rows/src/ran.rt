// The command of a row, run over memory.
ghost use Rattle.std.specs.Prelude.{◌≡◌, ◌<◌};

use crate::row::{Failing, Pieces, Row};
use crate::text::{Text, bytes_of, text_bytes};
use lw_base::{Name, NoMemory, Steps};
use lw_commands::{Desk, run};
use lw_io::{MemPatterns, MemSink, MemSource, MemStore};
use std::alloc::Global;
use std::collections::BTreeMap;
use std::sync::ledger::{Blank, Ledger};

/// What a run left.
#[derive(Drop)]
pub struct Ran {
    pub status: u8,
    pub out: Vec<u8>,
    pub notes: Vec<u8>,
    /// The bytes of the source that it did not take.
    pub left: Vec<u8>,
    /// Whether a session lies on the desk.
    pub is_serving: bool,
}

/// Runs the command of the row.
pub fn run_row<L: Ledger>(alloc: Global, blank: Blank, row: &Row) -> Result<Ran, NoMemory>
    requires name { blank.name ≡ L.name }
    requires parts { blank.parts ≡ L.parts }
    requires some { 0 < blank.parts }
{
    let (book, share) = blank.open::<L>();
    let mut steps = Steps::new(book, share);
    let words = names(alloc, row.words.as_slice())?;
    let mut source = source_of(alloc, row)?;
    let mut out = MemSink::new(alloc, vec![in alloc; row.fails.write]?);
    let mut notes = MemSink::new(alloc, vec![in alloc; row.fails.note]?);
    let mut store = store_of(alloc, &row.files, row.fails)?;
    let mut patterns = patterns_of(alloc, &row.refused)?;
    let mut desk = Desk::Empty;
    let status = run(
        alloc,
        words.as_slice(),
        &mut source,
        &mut out,
        &mut notes,
        &mut store,
        &mut patterns,
        &mut desk,
        &mut steps,
    );
    Ok(Ran {
        status: status.code,
        out: out.taken().to_vec(alloc)?,
        notes: notes.taken().to_vec(alloc)?,
        left: source.left().to_vec(alloc)?,
        is_serving: matches!(desk, Desk::Serving(_)),
    })
}

fn names(alloc: Global, words: &[String]) -> Result<Vec<Name>, NoMemory> {
    let mut names = Vec::new(alloc);
    'words: for word in words {
        names.push(Name::from_text(alloc, word.as_str())?)?;
    }
    Ok(names)
}

fn source_of(alloc: Global, row: &Row) -> Result<MemSource, NoMemory> {
    let bytes = bytes_of(alloc, &row.input)?;
    let pieces = pieces_of(alloc, &row.pieces, bytes.len())?;
    Ok(MemSource::new(bytes, pieces, vec![in alloc; row.fails.read]?))
}

/// The sizes of the pieces of so many bytes.
fn pieces_of(alloc: Global, pieces: &Option<Pieces>, length: usize) -> Result<Vec<u32>, NoMemory> {
    match pieces {
        Some(Pieces::Each(size)) => Ok(vec![in alloc; *size; length]?),
        Some(Pieces::First(sizes)) => Ok(sizes.as_slice().to_vec(alloc)?),
        None => Ok(Vec::new(alloc)),
    }
}

fn store_of(
    alloc: Global,
    files: &BTreeMap<String, Text>,
    fails: Failing,
) -> Result<MemStore, NoMemory> {
    let mut held = Vec::new(alloc);
    'files: for (path, text) in files.iter() {
        held.push((
            Name::from_text(alloc, path.as_str())?,
            text_bytes(alloc, text)?,
        ))?;
    }
    Ok(MemStore::new(held, vec![in alloc; fails.file]?))
}

/// Patterns that refuse this text, where there is one.
fn patterns_of(alloc: Global, refused: &Option<String>) -> Result<MemPatterns, NoMemory> {
    let mut listed = Vec::new(alloc);
    if let Some(text) = refused {
        listed.push(Name::from_text(alloc, text.as_str())?)?;
    }
    Ok(MemPatterns::new(listed))
}
