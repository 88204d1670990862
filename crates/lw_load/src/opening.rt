// A file of a store, and what it says.
ghost use Rattle.std.specs.Prelude.{◌≡◌, ◌≢◌, ◌≤◌, ℕ, length, IfOk, IfErr, IfSome};
ghost use Rattle.lw_base.specs.declared.limits.TheConstants.{LONGEST_TEXT};
ghost use Rattle.lw_grammar.specs.declared.grammar.Grammar.{Grammar};
ghost use Rattle.lw_gramread.specs.declared.reader.ReadFault.TheVariants.{NoMemory as no_memory};
ghost use Rattle.lw_gramread.specs.Syntax.{Syntax};
ghost use Rattle.lw_gramread.specs.Refusals.{IsRefusal};
ghost use Rattle.lw_gramread.specs.PlacesWithin.{StandsWithin, IsRefusalWithin};
ghost use Rattle.lw_load.specs.LoadFaults.{CountsLoad, place_of_refusal};
ghost use Rattle.lw_load.specs.Opening.{SaysOnly, IsFound, IsUnreadable, CannotLoad};

use crate::fault::LoadFault;
use lw_base::Name;
use lw_grammar::Grammar;
use lw_gramread::{ReadFault, read_grammar};
use lw_io::{Found, Store};
use lw_text::position;
use std::alloc::Global;

/// A file that says a grammar: where it was found, its text, and what that says.
#[derive(Drop)]
pub(crate) struct Opened {
    pub(crate) path: Name,
    pub(crate) text: Name,
    pub(crate) says: Grammar,
}

/// Reads the file at this path, and what it says.
pub(crate) fn open<F: Store>(alloc: Global, path: Name, store: &mut F) -> Result<Opened, LoadFault>
    ensures found { IfOk result (IsFound (F.files store.old) path) }
    ensures fault { IfErr result (λ fault. IfSome (F.files store.old) (λ files. (before : ℕ) → CannotLoad files before path fault)) }
    ensures store { CountsLoad (F.count store.old) (F.count store.new) result }
    ensures files { F.files store.new ≡ F.files store.old }
{
    match store.read(alloc, &path) {
        Found::Text(text) => grammar_in(alloc, path, text),
        Found::Absent => Err(LoadFault::Absent(path)),
        Found::NotUtf8 => Err(LoadFault::NotUtf8(path)),
        Found::TooLong => Err(LoadFault::TooLong(path)),
        Found::Failed => Err(LoadFault::StoreFault(path)),
        Found::NoMemory => Err(LoadFault::NoMemory),
    }
}

/// The file at this path that has this text.
fn grammar_in(alloc: Global, path: Name, text: Name) -> Result<Opened, LoadFault>
    requires { length text ≤ LONGEST_TEXT }
    ensures path { IfOk result (λ file. file.path ≡ path) }
    ensures text { IfOk result (λ file. file.text ≡ text) }
    ensures says { IfOk result (λ file. SaysOnly text file.says) }
    ensures stands { IfOk result (λ file. StandsWithin text file.says) }
    ensures fault { IfErr result (IsUnreadable path text) }
{
    match read_grammar(alloc, &text) {
        Ok(says) => Ok(Opened { path, text, says }),
        Err(fault) => Err(refusal(path, &text, fault)),
    }
}

/// Why the file at this path, which has this text, was not read.
fn refusal(path: Name, text: &Name, fault: ReadFault) -> LoadFault
    requires length { length text.now ≤ LONGEST_TEXT }
    requires place { IsRefusalWithin text.now fault }
    requires refusal { IsRefusal text.now fault }
    requires nothing { fault ≢ no_memory → (grammar : Grammar) → ¬ Syntax text.now grammar }
    ensures { IsUnreadable path text.now result }
{
    if fault == ReadFault::NoMemory {
        return LoadFault::NoMemory;
    }
    let at = position(text.text(), place_of(fault));
    LoadFault::Read(path, fault, at)
}

/// Where a refusal stands in its file.
fn place_of(fault: ReadFault) -> usize
    ensures { result ≡ place_of_refusal fault }
{
    match fault {
        ReadFault::Unexpected(span) | ReadFault::LeftOut(span, _) | ReadFault::TooDeep(span) => {
            span.start as usize
        }
        ReadFault::NoMemory => 0,
    }
}
