//! What commands write and note, and how they end: rows, each of which is tried over memory.
//!
//! The rows are read from standard input, one JSON object a line. `lw_commands::run` is run for each, over a source, sinks and files in
//! memory. A line is printed for each row that differs: its number, what differs, what was wanted and what was found. The last line says
//! how many rows there are and how many of them differ. The status is 0 where none differs, else 1. A line that is no row, and want of memory,
//! are told, end the run, and have status 2.
//!
//! The file `stdin` beside `src` holds the rows: the commands and the grammars that the pages show, and what no page shows.
//!
//! # A row
//!
//! | Member | What it says |
//! |---|---|
//! | `page` | the page that shows the command or the grammar; `examples/try.py` looks for the commands of the pages here |
//! | `about` | what the row is about; of a page, what part of it |
//! | `words` | the words of the command |
//! | `files` | what is in the store: a text for each path |
//! | `input` | the text that the source gives |
//! | `pieces` | the sizes of the first pieces of the source, or one size that each piece has; it is one piece where none are given |
//! | `fails` | the numbers of the calls that fail, counted from 1: `read` of the source, `write` of the output, `note` of the notes, `file` of the store |
//! | `refused` | a pattern that is refused |
//! | `status` | the status |
//! | `out` | the text that is written |
//! | `note` | the text that is noted |
//! | `left` | the text that stays in the source |
//! | `serving` | whether a session lies on the desk at the end |
//!
//! `words` and `status` stand in each row. A text that is left out is empty, but `left` and `serving` are looked at only where they stand.
//! There are no other members.
//!
//! # A text
//!
//! A text is a JSON string, or a list of parts, which stand one behind the other:
//!
//! | Part | What it is |
//! |---|---|
//! | a string | its bytes in UTF-8 |
//! | a number | a byte |
//! | `{"frame":"BODY"}` | `Content-Length: N`, an empty line and the body, which has N bytes; both lines end with `\r\n` |
//! | `{"times":N,"text":"TEXT"}` | the text N times |
//! | `{"times":N,"text":"TEXT","numbered":"END"}` | N times the text, a number and the end; the numbers go from 1 to N |
#![tactic(auto)]

mod difference;
mod ran;
mod row;
mod text;

use crate::difference::difference;
use crate::ran::run_row;
use crate::row::Row;
use lw_base::NoMemory;
use std::alloc::Global;
use std::io;
use std::io::{BufRead, BufReader};
use std::marker::Brand;
use std::process::ExitCode;
use std::sync::ledger::Blank;

/// Why no more rows are tried.
#[derive(Drop)]
enum Fault {
    NoMemory,
    /// The rows could not be read, or nothing could be written.
    Stream(io::Error),
    /// The line is no row.
    NoRow(serde_json::Error),
}

impl From<NoMemory> for Fault {
    fn from(_: NoMemory) -> Self {
        Fault::NoMemory
    }
}

impl From<io::Error> for Fault {
    fn from(error: io::Error) -> Self {
        Fault::Stream(error)
    }
}

/// How many rows were tried, and how many of them differ.
#[derive(Drop)]
struct Tally {
    rows: u64,
    differing: u64,
}

fn main(rt: HostRuntime) -> ExitCode {
    let mut tally = Tally {
        rows: 0,
        differing: 0,
    };
    let tried = try_rows(&rt, &mut tally);
    match tell(&rt, &tally, tried) {
        Ok(code) => ExitCode::from(code),
        Err(_) => ExitCode::from(2),
    }
}

/// Tells how it ended, and which status that is.
fn tell(rt: &HostRuntime, tally: &Tally, tried: Result<(), Fault>) -> io::Result<u8> {
    let rows = tally.rows;
    match tried {
        Ok(()) => {
            let differing = tally.differing;
            println!(rt; "{rows} rows, {differing} differ")?;
            return Ok(if differing == 0 { 0 } else { 1 });
        }
        Err(Fault::NoMemory) => println!(rt; "{rows}: out of memory")?,
        Err(Fault::Stream(error)) => println!(rt; "{rows}: {error}")?,
        Err(Fault::NoRow(error)) => println!(rt; "{rows}: no row: {error}")?,
    }
    Ok(2)
}

fn try_rows(rt: &HostRuntime, tally: &mut Tally) -> Result<(), Fault> {
    let alloc = rt.alloc();
    'rows: for line in BufReader::new(alloc, rt.reader())?.lines(alloc) {
        let line = line?;
        tally.rows = tally.rows.saturating_add(1);
        if let Some(told) = try_line(alloc, line.as_str())? {
            let number = tally.rows;
            println!(rt; "{number}: {told}")?;
            tally.differing = tally.differing.saturating_add(1);
        }
    }
    Ok(())
}

/// What differs in the row of this line.
fn try_line(alloc: Global, line: &str) -> Result<Option<String>, Fault> {
    match serde_json::from_str::<Row>(alloc, line) {
        Ok(row) => Ok(try_row(alloc, &row)?),
        Err(error) if error.is_memory() => Err(Fault::NoMemory),
        Err(error) => Err(Fault::NoRow(error)),
    }
}

fn try_row(alloc: Global, row: &Row) -> Result<Option<String>, NoMemory> {
    let ran = run_row::<Brand>(alloc, Blank::new(1), row)?;
    difference(alloc, row, &ran)
}
