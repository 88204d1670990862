// A workspace is generated and built, and its summary is printed.
ghost use Rattle.std.specs.Prelude.{◌≡◌, ◌≤◌, ◌⊎◌, IfOk, IfSome, OnErr, OnOk, Err, ℕ};
ghost use Rattle.std.specs.Io.KnownBytes.{Appends};
ghost use Rattle.lw_io.specs.Whole.{WritesFront};
ghost use Rattle.lw_commands.specs.Checking.{IsCaused};
ghost use Rattle.lw_commands.specs.Making.{MakeComesTo};
ghost use Rattle.lw_commands.specs.Stops.{Counts, TheSource, TheSink, TheStore, ThePatterns};
ghost use Rattle.lw_base.specs.declared.limits.TheConstants.{GREATEST_WORKSPACE};

use crate::desk::Desk;
use crate::report::Verdict;
use crate::stop::Stop;
use lw_base::{Name, Steps};
use lw_command_line::Root;
use lw_io::{Patterns, Sink, Store, write_all};
use lw_lang::compile;
use lw_make::making::{one_summary, summary_text};
use std::alloc::Global;
use std::sync::ledger::Ledger;

/// Reads the grammar, generates a workspace of so many documents by it, prints its summary, and leaves it on the desk.
pub(crate) fn make<K: Sink, F: Store, P: Patterns, L: Ledger>(
    alloc: Global,
    root: Root<'_>,
    count: u32,
    out: &mut K,
    store: &mut F,
    patterns: &mut P,
    desk: &mut Desk,
    steps: &mut Steps<L>,
) -> Result<Verdict, Stop>
    requires some { 1 ≤ count }
    requires most { count ≤ GREATEST_WORKSPACE }
    ensures works { IfSome (F.files store.old) (λ files.
        MakeComesTo files root.entry.path.now root.entry.k count (P.last_refused patterns.new) (K.written out.old) (K.written out.new) result) }
    ensures cause { IsCaused (F.files store.old) root.entry.path.now root.entry.k (P.last_refused patterns.new) result }
    ensures not_words { ¬ (result ≡ Err Stop.Words) }
    ensures source { (faults : ℕ) → Counts TheSource faults faults result }
    ensures sink { Counts TheSink (K.count out.old) (K.count out.new) result }
    ensures store { Counts TheStore (F.count store.old) (F.count store.new) result }
    ensures patterns { Counts ThePatterns (P.count patterns.old) (P.count patterns.new) result }
{
    one_summary();
    let language = compile(alloc, root.path, root.k, store, patterns)?;
    let made = lw_make::making::make(alloc, language, count, steps)?;
    let lines = summary_text(alloc, &made.summary)?;
    let outcome = print(out, &lines);
    desk.leave_made(made.workspace);
    outcome
}

// Prints the lines of a summary.
fn print<K: Sink>(out: &mut K, lines: &Name) -> Result<Verdict, Stop>
    ensures verdict { IfOk result (λ verdict. verdict ≡ Verdict.Whole) }
    ensures whole { OnOk result (Appends (K.written out.old) (K.written out.new) lines.now) }
    ensures fault { OnErr result ((result ≡ Err Stop.Write) ⊎ (result ≡ Err Stop.Memory)) }
    ensures front { OnErr result (WritesFront (K.written out.old) (K.written out.new) lines.now) }
    ensures sink { Counts TheSink (K.count out.old) (K.count out.new) result }
{
    write_all(out, lines.bytes())?;
    Ok(Verdict::Whole)
}
