// The notes: why a run stopped.
ghost use Rattle.std.specs.Prelude.{◌≡◌, ◌++◌, ◌<◌, IfOk, IfSome, IsTrue, codes, string_bytes};
ghost use Rattle.std.specs.Fmt.{decimal};
ghost use Rattle.std.specs.Option.{option_copied};
ghost use Rattle.lw_io.specs.Causes.{Rose};
ghost use Rattle.lw_commands.specs.Notes.{file_line, placed_line, whole_line, refusal_text, load_line, problem_text, term_line, look_line, conflict_text, told_line, told_lines, fault_line, frame_line, unread_line, IsStopLine, NotesPart, NotesStop};

use crate::named::FileFault;
use crate::place::printed;
use crate::stop::Stop;
use lw_base::{Name, NoMemory};
use lw_frame::FrameFault;
use lw_gramread::ReadFault;
use lw_io::{Sink, WriteFault, write_all};
use lw_lang::told::{ToldFault, fault_text};
use lw_lang::{
    CompileFault, PatternProblem, ToldConflict, ToldLookFault, ToldTermFault, ToldTerminal,
};
use lw_load::LoadFault;
use lw_text::Pos;
use std::alloc::Global;

/// Writes the line for a stop; `grammar` is the path of the grammar that the words name. False where
/// memory was refused for it; that a sink fails changes nothing. In any case no more is written than the
/// line.
pub(crate) fn note<N: Sink>(
    alloc: Global,
    notes: &mut N,
    grammar: Option<&Name>,
    stop: &Stop,
) -> bool
    ensures noted { IsTrue result → ¬ Rose (N.count notes.old) (N.count notes.new)
        → NotesStop (option_copied grammar.entry) stop.now (N.written notes.old) (N.written notes.new) }
    ensures unnoted { N.count notes.old < N.count notes.new → IsTrue result }
    ensures part { NotesPart (option_copied grammar.entry) stop.now (N.written notes.old) (N.written notes.new) }
{
    match stop_line(alloc, grammar, stop) {
        Ok(line) => !matches!(write_all(notes, line.as_bytes()), Err(WriteFault::NoMemory)),
        Err(NoMemory) => false,
    }
}

fn stop_line(alloc: Global, grammar: Option<&Name>, stop: &Stop) -> Result<String, NoMemory>
    ensures { IfOk result (λ line. IsStopLine (option_copied grammar.entry) stop.now (string_bytes line)) }
{
    let text = match stop {
        Stop::Words => {
            "usage: langbench check|serve|replay|make GRAMMAR [--lookahead K] [FILE or N]\n"
        }
        Stop::Grammar(fault) => return grammar_line(alloc, grammar, fault),
        Stop::File(fault) => return unread_line(alloc, fault),
        Stop::Read => "read failed\n",
        Stop::Write => "write failed\n",
        Stop::Memory => "out of memory\n",
        Stop::Frames(fault) => return frame_line(alloc, *fault),
        Stop::Limit => "input limit reached\n",
    };
    Ok(String::from_str(alloc, text)?)
}

fn frame_line(alloc: Global, fault: FrameFault) -> Result<String, NoMemory>
    ensures { IfOk result (λ line. string_bytes line ≡ frame_line fault) }
{
    match fault {
        FrameFault::BadHeader(at) => { Ok(format!(in alloc; "frame header fault at byte {at}\n")?) }
        FrameFault::NoLength(at) => {
            Ok(format!(in alloc; "frame without length at byte {at}\n")?)
        }
        FrameFault::TooLong(size) => Ok(format!(in alloc; "frame of {size} bytes is too long\n")?),
        FrameFault::Truncated(missing) => {
            Ok(format!(in alloc; "frame truncated: {missing} bytes missing\n")?)
        }
    }
}

// Only words that name a grammar lead to its faults.
fn grammar_line(
    alloc: Global,
    grammar: Option<&Name>,
    fault: &CompileFault,
) -> Result<String, NoMemory>
    ensures { IfOk result (λ line. IfSome (option_copied grammar.entry) (λ path. string_bytes line ≡ fault_line path fault.now)) }
{
    match grammar {
        Some(path) => fault_line(alloc, path, fault),
        None => Ok(String::new(alloc)),
    }
}

fn fault_line(alloc: Global, path: &Name, fault: &CompileFault) -> Result<String, NoMemory>
    ensures { IfOk result (λ line. string_bytes line ≡ fault_line path.now fault.now) }
{
    match fault {
        CompileFault::Load(found) => load_line(alloc, path, found),
        CompileFault::Faults(told) => told_lines(alloc, told.as_slice()),
        CompileFault::Term(told) => term_line(alloc, path, told),
        CompileFault::Look(told) => look_line(alloc, path, told),
        CompileFault::NoMemory => Ok(String::from_str(alloc, "out of memory\n")?),
    }
}

fn load_line(alloc: Global, path: &Name, fault: &LoadFault) -> Result<String, NoMemory>
    ensures { IfOk result (λ line. string_bytes line ≡ load_line path.now fault.now) }
{
    match fault {
        LoadFault::Absent(file) => file_line(alloc, file, "absent"),
        LoadFault::NotUtf8(file) => file_line(alloc, file, "not UTF-8"),
        LoadFault::TooLong(file) => file_line(alloc, file, "too long"),
        LoadFault::StoreFault(file) => file_line(alloc, file, "failed"),
        LoadFault::Read(file, found, at) => {
            let what = refusal_text(alloc, *found)?;
            placed_line(alloc, file, *at, what.as_str())
        }
        LoadFault::TooLarge(_) => whole_line(alloc, path, "grammar too large"),
        LoadFault::NoMemory => Ok(String::from_str(alloc, "out of memory\n")?),
    }
}

// Why a file that the words name was not read.
fn unread_line(alloc: Global, fault: &FileFault) -> Result<String, NoMemory>
    ensures { IfOk result (λ line. string_bytes line ≡ unread_line fault.now) }
{
    match fault {
        FileFault::Absent(path) => file_line(alloc, path, "absent"),
        FileFault::NotUtf8(path) => file_line(alloc, path, "not UTF-8"),
        FileFault::TooLong(path) => file_line(alloc, path, "too long"),
        FileFault::Failed(path) => file_line(alloc, path, "failed"),
    }
}

// How a file that says no grammar was refused.
fn refusal_text(alloc: Global, found: ReadFault) -> Result<String, NoMemory>
    ensures { IfOk result (λ text. string_bytes text ≡ refusal_text found) }
{
    let text = match found {
        ReadFault::Unexpected(_) => "unexpected token",
        ReadFault::LeftOut(_, form) => return Ok(format!(in alloc; "left out: {form}")?),
        ReadFault::TooDeep(_) => "too deep",
        ReadFault::NoMemory => "out of memory",
    };
    Ok(String::from_str(alloc, text)?)
}

// The faults that were found in a grammar, each in its line.
fn told_lines(alloc: Global, told: &[ToldFault]) -> Result<String, NoMemory>
    ensures { IfOk result (λ lines. string_bytes lines ≡ told_lines told.now) }
{
    let mut lines = String::new(alloc);
    'telling: for fault in told {
        let line = told_line(alloc, fault)?;
        lines.push_str(line.as_str())?;
    }
    Ok(lines)
}

// `PATH:LINE:COL: fault NUMBER: TEXT: NAME`
fn told_line(alloc: Global, told: &ToldFault) -> Result<String, NoMemory>
    ensures { IfOk result (λ line. string_bytes line ≡ told_line told.now) }
{
    let number = told.number;
    let text = fault_text(number);
    let name = &told.name;
    let what = format!(in alloc; "fault {number}: {text}: {name}")?;
    placed_line(alloc, &told.path, told.at, what.as_str())
}

// `PATH:1:1: WHAT`
fn whole_line(alloc: Global, path: &Name, what: &str) -> Result<String, NoMemory>
    ensures { IfOk result (λ line. string_bytes line ≡ whole_line path.now what.now) }
{
    placed_line(
        alloc,
        path,
        Pos {
            line: 0,
            character: 0,
        },
        what,
    )
}

// `PATH: WHAT`
fn file_line(alloc: Global, path: &Name, what: &str) -> Result<String, NoMemory>
    ensures { IfOk result (λ line. string_bytes line ≡ file_line path.now what.now) }
{
    Ok(format!(in alloc; "{path}: {what}\n")?)
}

// `PATH:LINE:COL: WHAT`
fn placed_line(alloc: Global, path: &Name, at: Pos, what: &str) -> Result<String, NoMemory>
    ensures { IfOk result (λ line. string_bytes line ≡ placed_line path.now at what.now) }
{
    let place = printed(alloc, at)?;
    Ok(format!(in alloc; "{path}:{place}: {what}\n")?)
}

// Why a grammar has no set of tokens.
fn term_line(alloc: Global, path: &Name, told: &ToldTermFault) -> Result<String, NoMemory>
    ensures { IfOk result (λ line. string_bytes line ≡ term_line path.now told.now) }
{
    match told {
        ToldTermFault::TooManyKinds(count) => kinds_line(alloc, path, *count),
        ToldTermFault::KeywordBlank(place) => {
            placed_line(alloc, &place.path, place.at, "blank keyword")
        }
        ToldTermFault::Pattern(terminal, found) => pattern_line(alloc, terminal, *found),
    }
}

// `PATH:1:1: too many kinds: COUNT`
fn kinds_line(alloc: Global, path: &Name, count: u32) -> Result<String, NoMemory>
    ensures { IfOk result (λ line. string_bytes line ≡ whole_line path.now (codes "too many kinds: " ++ decimal count)) }
{
    let what = format!(in alloc; "too many kinds: {count}")?;
    whole_line(alloc, path, what.as_str())
}

// `PATH:LINE:COL: terminal NAME: WHAT`
fn pattern_line(
    alloc: Global,
    terminal: &ToldTerminal,
    found: PatternProblem,
) -> Result<String, NoMemory>
    ensures { IfOk result (λ line. string_bytes line ≡ placed_line terminal.now.place.path terminal.now.place.at (codes "terminal " ++ terminal.now.name ++ codes ": " ++ problem_text found)) }
{
    let name = &terminal.name;
    let problem = problem_text(found);
    let what = format!(in alloc; "terminal {name}: {problem}")?;
    placed_line(
        alloc,
        &terminal.place.path,
        terminal.place.at,
        what.as_str(),
    )
}

// What is wrong with the pattern of a terminal.
fn problem_text(found: PatternProblem) -> &'static str
    ensures { result.now ≡ problem_text found }
{
    match found {
        PatternProblem::Long(_) => "pattern too long",
        PatternProblem::Refused => "pattern refused",
        PatternProblem::MatchesEmpty => "matches nothing",
    }
}

// Why a grammar has no tables.
fn look_line(alloc: Global, path: &Name, told: &ToldLookFault) -> Result<String, NoMemory>
    ensures { IfOk result (λ line. string_bytes line ≡ look_line path.now told.now) }
{
    match told {
        ToldLookFault::TooMany => whole_line(alloc, path, "too many lookahead strings"),
        ToldLookFault::Conflict(conflict) => conflict_line(alloc, conflict),
    }
}

// `PATH:LINE:COL: lookahead K: ways I and J share STRING`
fn conflict_line(alloc: Global, told: &ToldConflict) -> Result<String, NoMemory>
    ensures { IfOk result (λ line. string_bytes line ≡ placed_line told.now.place.path told.now.place.at (conflict_text told.now)) }
{
    let k = told.k;
    let first = told.first;
    let second = told.second;
    let shared = &told.shared;
    let what = format!(in alloc; "lookahead {k}: ways {first} and {second} share {shared}")?;
    placed_line(alloc, &told.place.path, told.place.at, what.as_str())
}
