//! Langbench: a language server from one grammar file.
//!
//! `langbench check GRAMMAR` reads a document from standard input and prints `ok`, or a line for each of its
//! diagnostics. `langbench serve GRAMMAR FILE ..` answers an editor over standard input and output, by the
//! Language Server Protocol 3.17, over the files that are named. `langbench make GRAMMAR N` generates a workspace of
//! N documents, builds and edits it, and prints what it holds.
//!
//! `lw_commands::run` has the whole meaning; `main` hands it the real streams, files and patterns and the words of the command line, and
//! ends with its status.
//!
//! The tests are those of want of memory. All else that is tried of the commands is a row of `lw_command_rows`.
#![tactic(auto)]

ghost use Rattle.std.specs.Prelude.{◌≡◌, ◌<◌};

use lw_base::{Name, NoMemory, Steps};
use lw_commands::{Desk, run};
use lw_io::{FileStore, RealPatterns, StdSink, StdSource};
use std::marker::Brand;
use std::mem::forget;
use std::process::ExitCode;
use std::sync::ledger::{Blank, Ledger};
use std::{env, io};

// Why the words of the command line could not be read.
enum WordsFault {
    NotUtf8,
    NoMemory,
}

impl From<NoMemory> for WordsFault {
    ghost use Rattle.langbench.specs.declared.WordsFault.{WordsFault};

    ghost from_gives = { λ _ fault. fault ≡ WordsFault.NoMemory };

    fn from(_: NoMemory) -> Self {
        WordsFault::NoMemory
    }
}

// The words after the program's name.
fn words_of(rt: &HostRuntime) -> Result<Vec<Name>, WordsFault> {
    let alloc = rt.alloc();
    let mut words = Vec::new(alloc);
    let args = match env::args(rt) {
        Ok(args) => args,
        Err(fault) if fault.kind() == io::ErrorKind::InvalidData => {
            return Err(WordsFault::NotUtf8);
        }
        Err(_) => return Err(WordsFault::NoMemory),
    };
    for word in args.skip(1) {
        let word = Name::from_text(alloc, word.as_str())?;
        if words.push(word).is_err() {
            return Err(WordsFault::NoMemory);
        }
    }
    Ok(words)
}

// Hands the real objects to the top call. Words that are no UTF-8 are no command, as no words are.
fn start<L: Ledger>(rt: &HostRuntime, blank: Blank) -> u8
    requires name { blank.name ≡ L.name }
    requires parts { blank.parts ≡ L.parts }
    requires some { 0 < blank.parts }
{
    let words = match words_of(rt) {
        Ok(words) => words,
        Err(WordsFault::NotUtf8) => Vec::new(rt.alloc()),
        Err(WordsFault::NoMemory) => return 7,
    };
    let (book, share) = blank.open::<L>();
    let mut steps = Steps::new(book, share);
    let mut source = StdSource::new(rt.stdin());
    let mut out = StdSink::new(rt.stdout());
    let mut notes = StdSink::new(rt.stderr());
    let mut store = FileStore::new(rt);
    let mut patterns = RealPatterns::new();
    let mut desk = Desk::Empty;
    let status = run(
        rt.alloc(),
        &words,
        &mut source,
        &mut out,
        &mut notes,
        &mut store,
        &mut patterns,
        &mut desk,
        &mut steps,
    );
    // The process ends here, and its memory with it: nothing is given back piece by piece.
    forget(desk);
    status.code
}

fn main(rt: HostRuntime) -> ExitCode {
    ExitCode::from(start::<Brand>(&rt, Blank::new(1)))
}

#[cfg(test)]
mod tests;
