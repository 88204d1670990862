// What the clauses do not say: that a session answers where there is memory. The bodies are those of the
// Language Server Protocol 3.17 and of JSON-RPC 2.0, and so are the codes of the errors.
ghost use Rattle.std.specs.Prelude.{◌≡◌, ◌<◌, IfOk};
ghost use Rattle.lw_reading.specs.Laws.{IsReadOneWay};

use lw_base::{Items, Name, NoMemory, Steps};
use lw_io::{MemPatterns, MemStore};
use lw_lang::{Language, compile};
use lw_session::{Ended, Mode, Session};
use std::alloc::Global;
use std::marker::Brand;
use std::process::Abort;
use std::sync::ledger::{Blank, Ledger};
use std::test::Fail;

pub(crate) const GRAMMAR: &str =
    "grammar F entry Model: 'model' name=ID; hidden terminal WS: /\\s+/; terminal ID: /[_a-zA-Z][\\w_]*/;";

// A grammar with references.
pub(crate) const STATES: &str =
    "grammar S entry Model: 'model' name=ID states+=State*; State: 'state' name=ID ('to' next+=[State:ID])* 'end'; hidden terminal WS: /\\s+/; terminal ID: /[_a-zA-Z][\\w_]*/;";

pub(crate) const HELLO: &str =
    "{\"id\":1,\"jsonrpc\":\"2.0\",\"result\":{\"capabilities\":{\"completionProvider\":{},\"definitionProvider\":true,\"positionEncoding\":\"utf-16\",\"referencesProvider\":true,\"renameProvider\":true,\"textDocumentSync\":{\"change\":2,\"openClose\":true}},\"serverInfo\":{\"name\":\"langbench\"}}}\n";

pub(crate) const INITIALIZE: &str =
    "{\"jsonrpc\":\"2.0\",\"id\":1,\"method\":\"initialize\",\"params\":{}}";

pub(crate) const SHUTDOWN: &str = "{\"jsonrpc\":\"2.0\",\"id\":2,\"method\":\"shutdown\"}";

pub(crate) const EXIT: &str = "{\"jsonrpc\":\"2.0\",\"method\":\"exit\"}";

pub(crate) fn language(rt: &impl Abort, alloc: Global, grammar: &str) -> Result<Language, NoMemory>
    ensures { IfOk result (λ language. IsReadOneWay language.grammar) }
{
    let root = Name::from_text(alloc, "f.langium")?;
    let mut files = Vec::new(alloc);
    files.push((root.copy(alloc)?, grammar.as_bytes().to_vec(alloc)?))?;
    let mut store = MemStore::new(files, Vec::new(alloc));
    let mut patterns = MemPatterns::new(Vec::new(alloc));
    match compile(alloc, &root, 2, &mut store, &mut patterns) {
        Ok(language) => Ok(language),
        Err(_) => panic!(rt; "the grammar is not built"),
    }
}

// The bodies, each on a line of its own.
fn lines(alloc: Global, bodies: &Items<Name>) -> Result<String, NoMemory> {
    let mut lines = String::new(alloc);
    'bodies: for body in bodies.as_slice() {
        lines.push_str(body.text())?;
        lines.push_str("\n")?;
    }
    Ok(lines)
}

// One session over these files: to each body these replies, and whether it is over then.
fn played<L: Ledger>(
    rt: &impl Abort,
    alloc: Global,
    blank: Blank,
    language: Language,
    store: &mut MemStore,
    rows: &[(&str, &str, Ended)],
) -> Result<(), NoMemory>
    requires one_way { IsReadOneWay language.grammar }
    requires name { blank.name ≡ L.name }
    requires parts { blank.parts ≡ L.parts }
    requires some { 0 < blank.parts }
{
    let (book, share) = blank.open::<L>();
    let mut steps = Steps::new(book, share);
    let mut session = Session::new(alloc, language, Mode::Full)?;
    'rows: for (body, replies, ended) in rows {
        let handled = session.handle(body.as_bytes(), store, &mut steps)?;
        let told = lines(alloc, &handled.replies)?;
        assert!(rt; told.as_str() == *replies, "{body} is answered {told}");
        assert!(rt; handled.ended == *ended, "after {body}");
    }
    Ok(())
}

// Files by path, of which reads of these numbers fail.
pub(crate) fn store_of(
    alloc: Global,
    files: &[(&str, &[u8])],
    failing: &[u64],
) -> Result<MemStore, NoMemory> {
    let mut held = Vec::new(alloc);
    'files: for (path, bytes) in files {
        held.push((Name::from_text(alloc, path)?, bytes.to_vec(alloc)?))?;
    }
    Ok(MemStore::new(held, failing.to_vec(alloc)?))
}

// The same, over a ledger of its own.
pub(crate) fn play_over(
    rt: &impl Abort,
    alloc: Global,
    grammar: &str,
    mut store: MemStore,
    rows: &[(&str, &str, Ended)],
) -> Result<(), NoMemory> {
    let language = language(rt, alloc, grammar)?;
    played::<Brand>(rt, alloc, Blank::new(1), language, &mut store, rows)
}

// The same, where there are no files.
fn play(
    rt: &impl Abort,
    alloc: Global,
    grammar: &str,
    rows: &[(&str, &str, Ended)],
) -> Result<(), NoMemory> {
    let store = MemStore::new(Vec::new(alloc), Vec::new(alloc));
    play_over(rt, alloc, grammar, store, rows)
}

#[test]
fn one_document_is_served(rt: HostRuntime) -> Result<(), Fail> {
    play(
        &rt,
        rt.alloc(),
        GRAMMAR,
        &[
            (INITIALIZE, HELLO, Ended::No),
            (
                "{\"jsonrpc\":\"2.0\",\"method\":\"textDocument/didOpen\",\"params\":{\"textDocument\":{\"uri\":\"file:///m.s\",\"languageId\":\"f\",\"version\":1,\"text\":\"model m\"}}}",
                "{\"jsonrpc\":\"2.0\",\"method\":\"textDocument/publishDiagnostics\",\"params\":{\"diagnostics\":[],\"uri\":\"file:///m.s\",\"version\":1}}\n",
                Ended::No,
            ),
            (
                SHUTDOWN,
                "{\"id\":2,\"jsonrpc\":\"2.0\",\"result\":null}\n",
                Ended::No,
            ),
            (EXIT, "", Ended::Clean),
        ],
    )?;
    Ok(())
}

#[test]
fn the_lifecycle_decides_first(rt: HostRuntime) -> Result<(), Fail> {
    play(
        &rt,
        rt.alloc(),
        GRAMMAR,
        &[
            (
                "{",
                "{\"error\":{\"code\":-32700,\"message\":\"parse error\"},\"id\":null,\"jsonrpc\":\"2.0\"}\n",
                Ended::No,
            ),
            (
                "{\"jsonrpc\":\"2.0\",\"id\":1.5,\"method\":\"initialize\"}",
                "{\"error\":{\"code\":-32600,\"message\":\"invalid request\"},\"id\":null,\"jsonrpc\":\"2.0\"}\n",
                Ended::No,
            ),
            (
                SHUTDOWN,
                "{\"error\":{\"code\":-32002,\"message\":\"server not initialized\"},\"id\":2,\"jsonrpc\":\"2.0\"}\n",
                Ended::No,
            ),
            (
                "{\"jsonrpc\":\"2.0\",\"id\":\"a\",\"method\":\"foo/bar\"}",
                "{\"error\":{\"code\":-32002,\"message\":\"server not initialized\"},\"id\":\"a\",\"jsonrpc\":\"2.0\"}\n",
                Ended::No,
            ),
            (
                "{\"jsonrpc\":\"2.0\",\"method\":\"textDocument/didOpen\",\"params\":{\"textDocument\":{\"uri\":\"u\",\"version\":1,\"text\":\"\"}}}",
                "",
                Ended::No,
            ),
            (
                "{\"jsonrpc\":\"2.0\",\"method\":\"textDocument/didOpen\"}",
                "",
                Ended::No,
            ),
            (INITIALIZE, HELLO, Ended::No),
            (
                INITIALIZE,
                "{\"error\":{\"code\":-32600,\"message\":\"invalid request\"},\"id\":1,\"jsonrpc\":\"2.0\"}\n",
                Ended::No,
            ),
            (
                "{\"jsonrpc\":\"2.0\",\"id\":\"a\",\"method\":\"foo/bar\"}",
                "{\"error\":{\"code\":-32601,\"message\":\"method not found\"},\"id\":\"a\",\"jsonrpc\":\"2.0\"}\n",
                Ended::No,
            ),
            (
                "{\"jsonrpc\":\"2.0\",\"method\":\"$/setTrace\",\"params\":{\"value\":\"off\"}}",
                "",
                Ended::No,
            ),
            (
                "{\"jsonrpc\":\"2.0\",\"id\":7,\"result\":null}",
                "",
                Ended::No,
            ),
            (
                "{\"jsonrpc\":\"2.0\",\"method\":\"textDocument/didOpen\",\"params\":{\"textDocument\":{\"uri\":\"u\",\"version\":\"1\",\"text\":\"\"}}}",
                "{\"jsonrpc\":\"2.0\",\"method\":\"window/logMessage\",\"params\":{\"message\":\"bad params: textDocument/didOpen\",\"type\":1}}\n",
                Ended::No,
            ),
            (
                SHUTDOWN,
                "{\"id\":2,\"jsonrpc\":\"2.0\",\"result\":null}\n",
                Ended::No,
            ),
            (
                SHUTDOWN,
                "{\"error\":{\"code\":-32600,\"message\":\"invalid request\"},\"id\":2,\"jsonrpc\":\"2.0\"}\n",
                Ended::No,
            ),
            (
                "{\"jsonrpc\":\"2.0\",\"id\":\"a\",\"method\":\"foo/bar\"}",
                "{\"error\":{\"code\":-32600,\"message\":\"invalid request\"},\"id\":\"a\",\"jsonrpc\":\"2.0\"}\n",
                Ended::No,
            ),
            (
                "{\"jsonrpc\":\"2.0\",\"method\":\"textDocument/didOpen\"}",
                "",
                Ended::No,
            ),
            (EXIT, "", Ended::Clean),
        ],
    )?;
    Ok(())
}

#[test]
fn lists_are_told_where_they_differ(rt: HostRuntime) -> Result<(), Fail> {
    play(
        &rt,
        rt.alloc(),
        GRAMMAR,
        &[
            (INITIALIZE, HELLO, Ended::No),
            (
                "{\"jsonrpc\":\"2.0\",\"method\":\"textDocument/didOpen\",\"params\":{\"textDocument\":{\"uri\":\"u\",\"version\":1,\"text\":\"model\"}}}",
                "{\"jsonrpc\":\"2.0\",\"method\":\"textDocument/publishDiagnostics\",\"params\":{\"diagnostics\":[{\"code\":2,\"message\":\"Unexpected end of text.\",\"range\":{\"end\":{\"character\":5,\"line\":0},\"start\":{\"character\":5,\"line\":0}},\"severity\":1}],\"uri\":\"u\",\"version\":1}}\n",
                Ended::No,
            ),
            (
                "{\"jsonrpc\":\"2.0\",\"method\":\"textDocument/didOpen\",\"params\":{\"textDocument\":{\"uri\":\"u\",\"version\":2,\"text\":\"model\"}}}",
                "",
                Ended::No,
            ),
            (
                "{\"jsonrpc\":\"2.0\",\"method\":\"textDocument/didOpen\",\"params\":{\"textDocument\":{\"uri\":\"v\",\"version\":1,\"text\":\"model w\"}}}",
                "{\"jsonrpc\":\"2.0\",\"method\":\"textDocument/publishDiagnostics\",\"params\":{\"diagnostics\":[],\"uri\":\"v\",\"version\":1}}\n",
                Ended::No,
            ),
            (
                "{\"jsonrpc\":\"2.0\",\"method\":\"textDocument/didOpen\",\"params\":{\"textDocument\":{\"uri\":\"u\",\"version\":3,\"text\":\"model\\n€\"}}}",
                "{\"jsonrpc\":\"2.0\",\"method\":\"textDocument/publishDiagnostics\",\"params\":{\"diagnostics\":[{\"code\":1,\"message\":\"Unexpected character.\",\"range\":{\"end\":{\"character\":1,\"line\":1},\"start\":{\"character\":0,\"line\":1}},\"severity\":1}],\"uri\":\"u\",\"version\":3}}\n",
                Ended::No,
            ),
            (
                "{\"jsonrpc\":\"2.0\",\"method\":\"textDocument/didOpen\",\"params\":{\"textDocument\":{\"uri\":\"u\",\"version\":4,\"text\":\"model model\"}}}",
                "{\"jsonrpc\":\"2.0\",\"method\":\"textDocument/publishDiagnostics\",\"params\":{\"diagnostics\":[{\"code\":2,\"message\":\"Unexpected 'model'.\",\"range\":{\"end\":{\"character\":11,\"line\":0},\"start\":{\"character\":6,\"line\":0}},\"severity\":1}],\"uri\":\"u\",\"version\":4}}\n",
                Ended::No,
            ),
            (
                "{\"jsonrpc\":\"2.0\",\"method\":\"textDocument/didOpen\",\"params\":{\"textDocument\":{\"uri\":\"u\",\"version\":5,\"text\":\"model m\"}}}",
                "{\"jsonrpc\":\"2.0\",\"method\":\"textDocument/publishDiagnostics\",\"params\":{\"diagnostics\":[],\"uri\":\"u\",\"version\":5}}\n",
                Ended::No,
            ),
            (EXIT, "", Ended::Early),
        ],
    )?;
    Ok(())
}

// Behind a refused list of changes the text and the version are those before it: the next change is made in
// that text.
#[test]
fn changes_are_made_all_or_none(rt: HostRuntime) -> Result<(), Fail> {
    play(
        &rt,
        rt.alloc(),
        GRAMMAR,
        &[
            (
                "{\"jsonrpc\":\"2.0\",\"method\":\"textDocument/didChange\",\"params\":{\"textDocument\":{\"uri\":\"u\",\"version\":1},\"contentChanges\":[]}}",
                "",
                Ended::No,
            ),
            (INITIALIZE, HELLO, Ended::No),
            (
                "{\"jsonrpc\":\"2.0\",\"method\":\"textDocument/didChange\",\"params\":{\"textDocument\":{\"uri\":\"u\",\"version\":1},\"contentChanges\":[]}}",
                "{\"jsonrpc\":\"2.0\",\"method\":\"window/logMessage\",\"params\":{\"message\":\"unknown document: u\",\"type\":1}}\n",
                Ended::No,
            ),
            (
                "{\"jsonrpc\":\"2.0\",\"method\":\"textDocument/didOpen\",\"params\":{\"textDocument\":{\"uri\":\"u\",\"version\":1,\"text\":\"model a😀b\"}}}",
                "{\"jsonrpc\":\"2.0\",\"method\":\"textDocument/publishDiagnostics\",\"params\":{\"diagnostics\":[{\"code\":1,\"message\":\"Unexpected character.\",\"range\":{\"end\":{\"character\":9,\"line\":0},\"start\":{\"character\":7,\"line\":0}},\"severity\":1}],\"uri\":\"u\",\"version\":1}}\n",
                Ended::No,
            ),
            (
                "{\"jsonrpc\":\"2.0\",\"method\":\"textDocument/didChange\",\"params\":{\"textDocument\":{\"uri\":\"u\",\"version\":2},\"contentChanges\":[{\"range\":{\"start\":{\"line\":0,\"character\":8},\"end\":{\"line\":0,\"character\":9}},\"text\":\"c\\r\\nd\"}]}}",
                "{\"jsonrpc\":\"2.0\",\"method\":\"textDocument/publishDiagnostics\",\"params\":{\"diagnostics\":[{\"code\":2,\"message\":\"Unexpected ID.\",\"range\":{\"end\":{\"character\":2,\"line\":1},\"start\":{\"character\":0,\"line\":1}},\"severity\":1}],\"uri\":\"u\",\"version\":2}}\n",
                Ended::No,
            ),
            (
                "{\"jsonrpc\":\"2.0\",\"method\":\"textDocument/didChange\",\"params\":{\"textDocument\":{\"uri\":\"u\",\"version\":3},\"contentChanges\":[{\"range\":{\"start\":{\"line\":0,\"character\":8},\"end\":{\"line\":1,\"character\":0}},\"text\":\"\"},{\"range\":{\"start\":{\"line\":0,\"character\":6},\"end\":{\"line\":0,\"character\":99}},\"text\":\"m\"}]}}",
                "{\"jsonrpc\":\"2.0\",\"method\":\"textDocument/publishDiagnostics\",\"params\":{\"diagnostics\":[],\"uri\":\"u\",\"version\":3}}\n",
                Ended::No,
            ),
            (
                "{\"jsonrpc\":\"2.0\",\"method\":\"textDocument/didChange\",\"params\":{\"textDocument\":{\"uri\":\"u\",\"version\":4},\"contentChanges\":[{\"text\":\"model\"},{\"range\":{\"start\":{\"line\":0,\"character\":2},\"end\":{\"line\":0,\"character\":1}},\"text\":\"y\"},{\"range\":{\"start\":{\"line\":0,\"character\":3},\"end\":{\"line\":0,\"character\":2}},\"text\":\"\"}]}}",
                "{\"jsonrpc\":\"2.0\",\"method\":\"window/logMessage\",\"params\":{\"message\":\"bad range in change 1 of u\",\"type\":1}}\n",
                Ended::No,
            ),
            (
                "{\"jsonrpc\":\"2.0\",\"method\":\"textDocument/didChange\",\"params\":{\"textDocument\":{\"uri\":\"u\",\"version\":4},\"contentChanges\":[]}}",
                "",
                Ended::No,
            ),
            (
                "{\"jsonrpc\":\"2.0\",\"method\":\"textDocument/didChange\",\"params\":{\"textDocument\":{\"uri\":\"u\",\"version\":-5},\"contentChanges\":[{\"range\":{\"start\":{\"line\":7,\"character\":0},\"end\":{\"line\":9,\"character\":0}},\"text\":\" x\"}]}}",
                "{\"jsonrpc\":\"2.0\",\"method\":\"textDocument/publishDiagnostics\",\"params\":{\"diagnostics\":[{\"code\":2,\"message\":\"Unexpected ID.\",\"range\":{\"end\":{\"character\":9,\"line\":0},\"start\":{\"character\":8,\"line\":0}},\"severity\":1}],\"uri\":\"u\",\"version\":-5}}\n",
                Ended::No,
            ),
            (
                "{\"jsonrpc\":\"2.0\",\"method\":\"textDocument/didChange\",\"params\":{\"textDocument\":{\"uri\":\"v\",\"version\":1},\"contentChanges\":[{\"text\":\"\"}]}}",
                "{\"jsonrpc\":\"2.0\",\"method\":\"window/logMessage\",\"params\":{\"message\":\"unknown document: v\",\"type\":1}}\n",
                Ended::No,
            ),
            (
                "{\"jsonrpc\":\"2.0\",\"method\":\"textDocument/didChange\",\"params\":{\"textDocument\":{\"uri\":\"u\",\"version\":7},\"contentChanges\":[{\"text\":\"\",\"range\":null}]}}",
                "{\"jsonrpc\":\"2.0\",\"method\":\"window/logMessage\",\"params\":{\"message\":\"bad params: textDocument/didChange\",\"type\":1}}\n",
                Ended::No,
            ),
            (
                "{\"jsonrpc\":\"2.0\",\"method\":\"textDocument/didChange\",\"params\":{\"textDocument\":{\"uri\":\"u\",\"version\":8},\"contentChanges\":[{\"text\":\"model\"},{\"range\":{\"start\":{\"line\":0,\"character\":5},\"end\":{\"line\":0,\"character\":5}},\"text\":\" m\"}]}}",
                "{\"jsonrpc\":\"2.0\",\"method\":\"textDocument/publishDiagnostics\",\"params\":{\"diagnostics\":[],\"uri\":\"u\",\"version\":8}}\n",
                Ended::No,
            ),
            (
                SHUTDOWN,
                "{\"id\":2,\"jsonrpc\":\"2.0\",\"result\":null}\n",
                Ended::No,
            ),
            (
                "{\"jsonrpc\":\"2.0\",\"method\":\"textDocument/didChange\",\"params\":{\"textDocument\":{\"uri\":\"v\",\"version\":1},\"contentChanges\":[]}}",
                "",
                Ended::No,
            ),
            (EXIT, "", Ended::Clean),
        ],
    )?;
    Ok(())
}

// A document that comes or changes tells anew the lists of those that refer to it, in the order of addresses.
#[test]
fn references_lead_to_other_documents(rt: HostRuntime) -> Result<(), Fail> {
    play(
        &rt,
        rt.alloc(),
        STATES,
        &[
            (INITIALIZE, HELLO, Ended::No),
            (
                "{\"jsonrpc\":\"2.0\",\"method\":\"textDocument/didOpen\",\"params\":{\"textDocument\":{\"uri\":\"file:///c.s\",\"version\":1,\"text\":\"model c state s to x end\"}}}",
                "{\"jsonrpc\":\"2.0\",\"method\":\"textDocument/publishDiagnostics\",\"params\":{\"diagnostics\":[{\"code\":3,\"message\":\"Could not resolve reference to State named 'x'.\",\"range\":{\"end\":{\"character\":20,\"line\":0},\"start\":{\"character\":19,\"line\":0}},\"severity\":1}],\"uri\":\"file:///c.s\",\"version\":1}}\n",
                Ended::No,
            ),
            (
                "{\"jsonrpc\":\"2.0\",\"method\":\"textDocument/didOpen\",\"params\":{\"textDocument\":{\"uri\":\"file:///m.s\",\"version\":1,\"text\":\"model m state x end\"}}}",
                "{\"jsonrpc\":\"2.0\",\"method\":\"textDocument/publishDiagnostics\",\"params\":{\"diagnostics\":[],\"uri\":\"file:///c.s\",\"version\":1}}\n{\"jsonrpc\":\"2.0\",\"method\":\"textDocument/publishDiagnostics\",\"params\":{\"diagnostics\":[],\"uri\":\"file:///m.s\",\"version\":1}}\n",
                Ended::No,
            ),
            (
                "{\"jsonrpc\":\"2.0\",\"method\":\"textDocument/didChange\",\"params\":{\"textDocument\":{\"uri\":\"file:///m.s\",\"version\":2},\"contentChanges\":[{\"text\":\"model\"}]}}",
                "{\"jsonrpc\":\"2.0\",\"method\":\"textDocument/publishDiagnostics\",\"params\":{\"diagnostics\":[{\"code\":3,\"message\":\"Could not resolve reference to State named 'x'.\",\"range\":{\"end\":{\"character\":20,\"line\":0},\"start\":{\"character\":19,\"line\":0}},\"severity\":1}],\"uri\":\"file:///c.s\",\"version\":1}}\n{\"jsonrpc\":\"2.0\",\"method\":\"textDocument/publishDiagnostics\",\"params\":{\"diagnostics\":[{\"code\":2,\"message\":\"Unexpected end of text.\",\"range\":{\"end\":{\"character\":5,\"line\":0},\"start\":{\"character\":5,\"line\":0}},\"severity\":1}],\"uri\":\"file:///m.s\",\"version\":2}}\n",
                Ended::No,
            ),
            (
                "{\"jsonrpc\":\"2.0\",\"method\":\"textDocument/didChange\",\"params\":{\"textDocument\":{\"uri\":\"file:///m.s\",\"version\":3},\"contentChanges\":[{\"range\":{\"start\":{\"line\":0,\"character\":5},\"end\":{\"line\":0,\"character\":5}},\"text\":\" m state x end\"}]}}",
                "{\"jsonrpc\":\"2.0\",\"method\":\"textDocument/publishDiagnostics\",\"params\":{\"diagnostics\":[],\"uri\":\"file:///c.s\",\"version\":1}}\n{\"jsonrpc\":\"2.0\",\"method\":\"textDocument/publishDiagnostics\",\"params\":{\"diagnostics\":[],\"uri\":\"file:///m.s\",\"version\":3}}\n",
                Ended::No,
            ),
            (
                "{\"jsonrpc\":\"2.0\",\"method\":\"textDocument/didChange\",\"params\":{\"textDocument\":{\"uri\":\"file:///c.s\",\"version\":2},\"contentChanges\":[{\"range\":{\"start\":{\"line\":0,\"character\":19},\"end\":{\"line\":0,\"character\":20}},\"text\":\"y\"}]}}",
                "{\"jsonrpc\":\"2.0\",\"method\":\"textDocument/publishDiagnostics\",\"params\":{\"diagnostics\":[{\"code\":3,\"message\":\"Could not resolve reference to State named 'y'.\",\"range\":{\"end\":{\"character\":20,\"line\":0},\"start\":{\"character\":19,\"line\":0}},\"severity\":1}],\"uri\":\"file:///c.s\",\"version\":2}}\n",
                Ended::No,
            ),
            (
                "{\"jsonrpc\":\"2.0\",\"method\":\"textDocument/didChange\",\"params\":{\"textDocument\":{\"uri\":\"file:///m.s\",\"version\":4},\"contentChanges\":[{\"range\":{\"start\":{\"line\":0,\"character\":14},\"end\":{\"line\":0,\"character\":15}},\"text\":\"y\"}]}}",
                "{\"jsonrpc\":\"2.0\",\"method\":\"textDocument/publishDiagnostics\",\"params\":{\"diagnostics\":[],\"uri\":\"file:///c.s\",\"version\":2}}\n",
                Ended::No,
            ),
        ],
    )?;
    Ok(())
}

// Two documents that export one name are told of one another, until one of them no longer does.
#[test]
fn exports_of_one_name_are_told(rt: HostRuntime) -> Result<(), Fail> {
    play(
        &rt,
        rt.alloc(),
        STATES,
        &[
            (INITIALIZE, HELLO, Ended::No),
            (
                "{\"jsonrpc\":\"2.0\",\"method\":\"textDocument/didOpen\",\"params\":{\"textDocument\":{\"uri\":\"file:///c.s\",\"version\":1,\"text\":\"model c state s to x end\"}}}",
                "{\"jsonrpc\":\"2.0\",\"method\":\"textDocument/publishDiagnostics\",\"params\":{\"diagnostics\":[{\"code\":3,\"message\":\"Could not resolve reference to State named 'x'.\",\"range\":{\"end\":{\"character\":20,\"line\":0},\"start\":{\"character\":19,\"line\":0}},\"severity\":1}],\"uri\":\"file:///c.s\",\"version\":1}}\n",
                Ended::No,
            ),
            (
                "{\"jsonrpc\":\"2.0\",\"method\":\"textDocument/didOpen\",\"params\":{\"textDocument\":{\"uri\":\"file:///m.s\",\"version\":1,\"text\":\"model m state x end\"}}}",
                "{\"jsonrpc\":\"2.0\",\"method\":\"textDocument/publishDiagnostics\",\"params\":{\"diagnostics\":[],\"uri\":\"file:///c.s\",\"version\":1}}\n{\"jsonrpc\":\"2.0\",\"method\":\"textDocument/publishDiagnostics\",\"params\":{\"diagnostics\":[],\"uri\":\"file:///m.s\",\"version\":1}}\n",
                Ended::No,
            ),
            (
                "{\"jsonrpc\":\"2.0\",\"method\":\"textDocument/didOpen\",\"params\":{\"textDocument\":{\"uri\":\"file:///b.s\",\"version\":1,\"text\":\"model b state x end\"}}}",
                "{\"jsonrpc\":\"2.0\",\"method\":\"textDocument/publishDiagnostics\",\"params\":{\"diagnostics\":[{\"code\":5,\"message\":\"State 'x' is also exported by file:///m.s.\",\"range\":{\"end\":{\"character\":15,\"line\":0},\"start\":{\"character\":14,\"line\":0}},\"severity\":2}],\"uri\":\"file:///b.s\",\"version\":1}}\n{\"jsonrpc\":\"2.0\",\"method\":\"textDocument/publishDiagnostics\",\"params\":{\"diagnostics\":[{\"code\":5,\"message\":\"State 'x' is also exported by file:///b.s.\",\"range\":{\"end\":{\"character\":15,\"line\":0},\"start\":{\"character\":14,\"line\":0}},\"severity\":2}],\"uri\":\"file:///m.s\",\"version\":1}}\n",
                Ended::No,
            ),
            (
                "{\"jsonrpc\":\"2.0\",\"method\":\"textDocument/didChange\",\"params\":{\"textDocument\":{\"uri\":\"file:///b.s\",\"version\":2},\"contentChanges\":[{\"range\":{\"start\":{\"line\":0,\"character\":7},\"end\":{\"line\":0,\"character\":19}},\"text\":\"\"}]}}",
                "{\"jsonrpc\":\"2.0\",\"method\":\"textDocument/publishDiagnostics\",\"params\":{\"diagnostics\":[],\"uri\":\"file:///b.s\",\"version\":2}}\n{\"jsonrpc\":\"2.0\",\"method\":\"textDocument/publishDiagnostics\",\"params\":{\"diagnostics\":[],\"uri\":\"file:///m.s\",\"version\":1}}\n",
                Ended::No,
            ),
            (
                "{\"jsonrpc\":\"2.0\",\"method\":\"textDocument/didChange\",\"params\":{\"textDocument\":{\"uri\":\"file:///n.s\",\"version\":1},\"contentChanges\":[{\"text\":\"\"}]}}",
                "{\"jsonrpc\":\"2.0\",\"method\":\"window/logMessage\",\"params\":{\"message\":\"unknown document: file:///n.s\",\"type\":1}}\n",
                Ended::No,
            ),
        ],
    )?;
    Ok(())
}

#[test]
fn questions_are_answered_behind_a_build(rt: HostRuntime) -> Result<(), Fail> {
    play(
        &rt,
        rt.alloc(),
        STATES,
        &[
            (INITIALIZE, HELLO, Ended::No),
            (
                "{\"jsonrpc\":\"2.0\",\"method\":\"textDocument/didOpen\",\"params\":{\"textDocument\":{\"uri\":\"file:///c.s\",\"languageId\":\"s\",\"version\":1,\"text\":\"model c state s to x end\"}}}",
                "{\"jsonrpc\":\"2.0\",\"method\":\"textDocument/publishDiagnostics\",\"params\":{\"diagnostics\":[{\"code\":3,\"message\":\"Could not resolve reference to State named 'x'.\",\"range\":{\"end\":{\"character\":20,\"line\":0},\"start\":{\"character\":19,\"line\":0}},\"severity\":1}],\"uri\":\"file:///c.s\",\"version\":1}}\n",
                Ended::No,
            ),
            (
                "{\"jsonrpc\":\"2.0\",\"id\":2,\"method\":\"textDocument/definition\",\"params\":{\"textDocument\":{\"uri\":\"file:///c.s\"},\"position\":{\"line\":0,\"character\":19}}}",
                "{\"id\":2,\"jsonrpc\":\"2.0\",\"result\":null}\n",
                Ended::No,
            ),
            (
                "{\"jsonrpc\":\"2.0\",\"method\":\"textDocument/didOpen\",\"params\":{\"textDocument\":{\"uri\":\"file:///m.s\",\"languageId\":\"s\",\"version\":1,\"text\":\"model m state x end\"}}}",
                "{\"jsonrpc\":\"2.0\",\"method\":\"textDocument/publishDiagnostics\",\"params\":{\"diagnostics\":[],\"uri\":\"file:///c.s\",\"version\":1}}\n{\"jsonrpc\":\"2.0\",\"method\":\"textDocument/publishDiagnostics\",\"params\":{\"diagnostics\":[],\"uri\":\"file:///m.s\",\"version\":1}}\n",
                Ended::No,
            ),
            (
                "{\"jsonrpc\":\"2.0\",\"id\":3,\"method\":\"textDocument/definition\",\"params\":{\"textDocument\":{\"uri\":\"file:///c.s\"},\"position\":{\"line\":0,\"character\":19}}}",
                "{\"id\":3,\"jsonrpc\":\"2.0\",\"result\":{\"range\":{\"end\":{\"character\":15,\"line\":0},\"start\":{\"character\":14,\"line\":0}},\"uri\":\"file:///m.s\"}}\n",
                Ended::No,
            ),
            (
                "{\"jsonrpc\":\"2.0\",\"id\":4,\"method\":\"textDocument/definition\",\"params\":{\"textDocument\":{\"uri\":\"file:///c.s\"},\"position\":{\"line\":0,\"character\":20}}}",
                "{\"id\":4,\"jsonrpc\":\"2.0\",\"result\":{\"range\":{\"end\":{\"character\":15,\"line\":0},\"start\":{\"character\":14,\"line\":0}},\"uri\":\"file:///m.s\"}}\n",
                Ended::No,
            ),
            (
                "{\"jsonrpc\":\"2.0\",\"id\":5,\"method\":\"textDocument/definition\",\"params\":{\"textDocument\":{\"uri\":\"file:///b.s\"},\"position\":{\"line\":0,\"character\":0}}}",
                "{\"id\":5,\"jsonrpc\":\"2.0\",\"result\":null}\n",
                Ended::No,
            ),
            (
                "{\"jsonrpc\":\"2.0\",\"id\":6,\"method\":\"textDocument/references\",\"params\":{\"textDocument\":{\"uri\":\"file:///c.s\"},\"position\":{\"line\":0,\"character\":19},\"context\":{\"includeDeclaration\":true}}}",
                "{\"id\":6,\"jsonrpc\":\"2.0\",\"result\":[{\"range\":{\"end\":{\"character\":20,\"line\":0},\"start\":{\"character\":19,\"line\":0}},\"uri\":\"file:///c.s\"},{\"range\":{\"end\":{\"character\":15,\"line\":0},\"start\":{\"character\":14,\"line\":0}},\"uri\":\"file:///m.s\"}]}\n",
                Ended::No,
            ),
            (
                "{\"jsonrpc\":\"2.0\",\"id\":7,\"method\":\"textDocument/references\",\"params\":{\"textDocument\":{\"uri\":\"file:///c.s\"},\"position\":{\"line\":0,\"character\":19},\"context\":{\"includeDeclaration\":false}}}",
                "{\"id\":7,\"jsonrpc\":\"2.0\",\"result\":[{\"range\":{\"end\":{\"character\":20,\"line\":0},\"start\":{\"character\":19,\"line\":0}},\"uri\":\"file:///c.s\"}]}\n",
                Ended::No,
            ),
            (
                "{\"jsonrpc\":\"2.0\",\"id\":8,\"method\":\"textDocument/references\",\"params\":{\"textDocument\":{\"uri\":\"file:///c.s\"},\"position\":{\"line\":0,\"character\":14},\"context\":{\"includeDeclaration\":false}}}",
                "{\"id\":8,\"jsonrpc\":\"2.0\",\"result\":[]}\n",
                Ended::No,
            ),
            (
                "{\"jsonrpc\":\"2.0\",\"id\":9,\"method\":\"textDocument/rename\",\"params\":{\"textDocument\":{\"uri\":\"file:///m.s\"},\"position\":{\"line\":0,\"character\":14},\"newName\":\"q\"}}",
                "{\"id\":9,\"jsonrpc\":\"2.0\",\"result\":{\"changes\":{\"file:///c.s\":[{\"newText\":\"q\",\"range\":{\"end\":{\"character\":20,\"line\":0},\"start\":{\"character\":19,\"line\":0}}}],\"file:///m.s\":[{\"newText\":\"q\",\"range\":{\"end\":{\"character\":15,\"line\":0},\"start\":{\"character\":14,\"line\":0}}}]}}}\n",
                Ended::No,
            ),
            (
                "{\"jsonrpc\":\"2.0\",\"id\":10,\"method\":\"textDocument/rename\",\"params\":{\"textDocument\":{\"uri\":\"file:///m.s\"},\"position\":{\"line\":0,\"character\":14},\"newName\":\"end\"}}",
                "{\"error\":{\"code\":-32803,\"message\":\"The new name can't be read in file:///c.s.\"},\"id\":10,\"jsonrpc\":\"2.0\"}\n",
                Ended::No,
            ),
            (
                "{\"jsonrpc\":\"2.0\",\"id\":11,\"method\":\"textDocument/rename\",\"params\":{\"textDocument\":{\"uri\":\"file:///m.s\"},\"position\":{\"line\":0,\"character\":0},\"newName\":\"q\"}}",
                "{\"error\":{\"code\":-32803,\"message\":\"There is no name here.\"},\"id\":11,\"jsonrpc\":\"2.0\"}\n",
                Ended::No,
            ),
            (
                "{\"jsonrpc\":\"2.0\",\"id\":12,\"method\":\"textDocument/rename\",\"params\":{\"textDocument\":{\"uri\":\"file:///m.s\"},\"position\":{\"line\":0,\"character\":14}}}",
                "{\"error\":{\"code\":-32602,\"message\":\"invalid params\"},\"id\":12,\"jsonrpc\":\"2.0\"}\n",
                Ended::No,
            ),
            (
                "{\"jsonrpc\":\"2.0\",\"method\":\"textDocument/didOpen\",\"params\":{\"textDocument\":{\"uri\":\"file:///m.s\",\"languageId\":\"s\",\"version\":1,\"text\":\"model m state a to b end state b end\"}}}",
                "{\"jsonrpc\":\"2.0\",\"method\":\"textDocument/publishDiagnostics\",\"params\":{\"diagnostics\":[{\"code\":3,\"message\":\"Could not resolve reference to State named 'x'.\",\"range\":{\"end\":{\"character\":20,\"line\":0},\"start\":{\"character\":19,\"line\":0}},\"severity\":1}],\"uri\":\"file:///c.s\",\"version\":1}}\n",
                Ended::No,
            ),
            (
                "{\"jsonrpc\":\"2.0\",\"id\":13,\"method\":\"textDocument/rename\",\"params\":{\"textDocument\":{\"uri\":\"file:///m.s\"},\"position\":{\"line\":0,\"character\":14},\"newName\":\"b\"}}",
                "{\"error\":{\"code\":-32803,\"message\":\"A reference in file:///m.s at 1:20 would change its target.\"},\"id\":13,\"jsonrpc\":\"2.0\"}\n",
                Ended::No,
            ),
            (
                "{\"jsonrpc\":\"2.0\",\"id\":14,\"method\":\"textDocument/rename\",\"params\":{\"textDocument\":{\"uri\":\"file:///m.s\"},\"position\":{\"line\":0,\"character\":14},\"newName\":\"x\"}}",
                "{\"error\":{\"code\":-32803,\"message\":\"A reference in file:///c.s at 1:20 would change its target.\"},\"id\":14,\"jsonrpc\":\"2.0\"}\n",
                Ended::No,
            ),
            (
                "{\"jsonrpc\":\"2.0\",\"method\":\"textDocument/didOpen\",\"params\":{\"textDocument\":{\"uri\":\"file:///m.s\",\"languageId\":\"s\",\"version\":1,\"text\":\"model m state a end state c to z end\"}}}",
                "{\"jsonrpc\":\"2.0\",\"method\":\"textDocument/publishDiagnostics\",\"params\":{\"diagnostics\":[{\"code\":3,\"message\":\"Could not resolve reference to State named 'z'.\",\"range\":{\"end\":{\"character\":32,\"line\":0},\"start\":{\"character\":31,\"line\":0}},\"severity\":1}],\"uri\":\"file:///m.s\",\"version\":1}}\n",
                Ended::No,
            ),
            (
                "{\"jsonrpc\":\"2.0\",\"id\":15,\"method\":\"textDocument/rename\",\"params\":{\"textDocument\":{\"uri\":\"file:///m.s\"},\"position\":{\"line\":0,\"character\":14},\"newName\":\"z\"}}",
                "{\"error\":{\"code\":-32803,\"message\":\"A reference in file:///m.s at 1:32 would change its target.\"},\"id\":15,\"jsonrpc\":\"2.0\"}\n",
                Ended::No,
            ),
            (
                "{\"jsonrpc\":\"2.0\",\"id\":16,\"method\":\"textDocument/rename\",\"params\":{\"textDocument\":{\"uri\":\"file:///m.s\"},\"position\":{\"line\":0,\"character\":14},\"newName\":\"\"}}",
                "{\"error\":{\"code\":-32803,\"message\":\"The new name can't be read in file:///m.s.\"},\"id\":16,\"jsonrpc\":\"2.0\"}\n",
                Ended::No,
            ),
            (
                "{\"jsonrpc\":\"2.0\",\"id\":17,\"method\":\"textDocument/rename\",\"params\":{\"textDocument\":{\"uri\":\"file:///m.s\"},\"position\":{\"line\":0,\"character\":14},\"newName\":\"q r\"}}",
                "{\"error\":{\"code\":-32803,\"message\":\"The new name can't be read in file:///m.s.\"},\"id\":17,\"jsonrpc\":\"2.0\"}\n",
                Ended::No,
            ),
            (
                "{\"jsonrpc\":\"2.0\",\"id\":18,\"method\":\"textDocument/rename\",\"params\":{\"textDocument\":{\"uri\":\"file:///m.s\"},\"position\":{\"line\":0,\"character\":14},\"newName\":\"a\"}}",
                "{\"id\":18,\"jsonrpc\":\"2.0\",\"result\":{\"changes\":{\"file:///m.s\":[{\"newText\":\"a\",\"range\":{\"end\":{\"character\":15,\"line\":0},\"start\":{\"character\":14,\"line\":0}}}]}}}\n",
                Ended::No,
            ),
        ],
    )?;
    Ok(())
}

// Nothing is offered in a document that is not held.
#[test]
fn what_may_be_written_is_offered(rt: HostRuntime) -> Result<(), Fail> {
    play(
        &rt,
        rt.alloc(),
        STATES,
        &[
            (INITIALIZE, HELLO, Ended::No),
            (
                "{\"jsonrpc\":\"2.0\",\"id\":2,\"method\":\"textDocument/completion\",\"params\":{\"textDocument\":{\"uri\":\"u\"},\"position\":{\"line\":0,\"character\":0}}}",
                "{\"id\":2,\"jsonrpc\":\"2.0\",\"result\":[]}\n",
                Ended::No,
            ),
            (
                "{\"jsonrpc\":\"2.0\",\"method\":\"textDocument/didOpen\",\"params\":{\"textDocument\":{\"uri\":\"u\",\"version\":1,\"text\":\"model m state a to  end state b end\"}}}",
                "{\"jsonrpc\":\"2.0\",\"method\":\"textDocument/publishDiagnostics\",\"params\":{\"diagnostics\":[{\"code\":2,\"message\":\"Unexpected 'end'.\",\"range\":{\"end\":{\"character\":23,\"line\":0},\"start\":{\"character\":20,\"line\":0}},\"severity\":1}],\"uri\":\"u\",\"version\":1}}\n",
                Ended::No,
            ),
            (
                "{\"jsonrpc\":\"2.0\",\"id\":3,\"method\":\"textDocument/completion\",\"params\":{\"textDocument\":{\"uri\":\"u\"},\"position\":{\"line\":0,\"character\":19}}}",
                "{\"id\":3,\"jsonrpc\":\"2.0\",\"result\":[{\"kind\":18,\"label\":\"a\",\"textEdit\":{\"newText\":\"a\",\"range\":{\"end\":{\"character\":19,\"line\":0},\"start\":{\"character\":19,\"line\":0}}}},{\"kind\":18,\"label\":\"b\",\"textEdit\":{\"newText\":\"b\",\"range\":{\"end\":{\"character\":19,\"line\":0},\"start\":{\"character\":19,\"line\":0}}}}]}\n",
                Ended::No,
            ),
        ],
    )?;
    Ok(())
}
