// What no clause says: that the calls succeed where there is memory, and what a workspace of a known language comes to.
ghost use Rattle.std.specs.Prelude.{◌≡◌, ◌<◌, ◌≤◌, IfOk};
ghost use Rattle.lw_reading.specs.Laws.{IsReadOneWay};

use lw_base::{GREATEST_WORKSPACE, Name, NoMemory, Steps};
use lw_io::{MemPatterns, MemStore};
use lw_lang::{Language, compile};
use lw_make::making::{make, summary_text};
use std::alloc::Global;
use std::marker::Brand;
use std::process::Abort;
use std::sync::ledger::{Blank, Ledger};
use std::test::Fail;

const STATES: &str = "grammar S
entry Model: 'model' name=ID states+=State*;
State: 'state' name=ID ('to' next+=[State:ID])* 'end';
hidden terminal WS: /\\s+/;
terminal ID: /[_a-zA-Z][\\w_]*/;
";

fn language(rt: &impl Abort, alloc: Global) -> Result<Language, NoMemory>
    ensures { IfOk result (λ language. IsReadOneWay language.grammar) }
{
    let root = Name::from_text(alloc, "s.langium")?;
    let mut files = Vec::new(alloc);
    files.push((root.copy(alloc)?, STATES.as_bytes().to_vec(alloc)?))?;
    let mut store = MemStore::new(files, Vec::new(alloc));
    let mut patterns = MemPatterns::new(Vec::new(alloc));
    match compile(alloc, &root, 2, &mut store, &mut patterns) {
        Ok(language) => Ok(language),
        Err(_) => panic!(rt; "the grammar is not built"),
    }
}

/// The lines of the summary of so many documents.
fn made<L: Ledger>(
    rt: &impl Abort,
    alloc: Global,
    blank: Blank,
    count: u32,
) -> Result<Name, NoMemory>
    requires name { blank.name ≡ L.name }
    requires parts { blank.parts ≡ L.parts }
    requires some { 0 < blank.parts }
    requires greatest { count ≤ GREATEST_WORKSPACE }
{
    let (book, share) = blank.open::<L>();
    let mut steps = Steps::new(book, share);
    let made = make(alloc, language(rt, alloc)?, count, &mut steps)?;
    summary_text(alloc, &made.summary)
}

fn lines(rt: &impl Abort, alloc: Global, count: u32) -> Result<Name, NoMemory>
    requires { count ≤ GREATEST_WORKSPACE }
{
    made::<Brand>(rt, alloc, Blank::new(1), count)
}

/// Of twenty documents each has a node for itself and twenty states, with two references each; two edits add a state each, whose reference
/// leads nowhere, and publish the list of the document that they are made in.
#[test]
fn a_workspace_of_twenty_is_summed_up(rt: HostRuntime) -> Result<(), Fail> {
    let lines = lines(&rt, rt.alloc(), 20)?;
    assert_eq!(rt;
        lines.text(),
        "documents 20\nnodes 422\nreferences 802\nunresolved 2\ndiagnostics 2\npublished 22\n"
    );
    Ok(())
}
