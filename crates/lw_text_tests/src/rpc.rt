// What the clauses do not say: that the calls answer where there is memory. The bodies and the texts are
// those of JSON-RPC 2.0 and of the Language Server Protocol 3.17.
ghost use Rattle.std.specs.Prelude.{◌≡◌, IfOk};
ghost use Rattle.lw_rpc.specs.Replies.{AreOrdered, HasOrderedEdits};

use lw_base::{Items, Name, NoMemory};
use lw_rpc::{
    CompletionItem, FileEdits, Id, Location, Message, Outcome, Reply, TextEdit, read_message,
    reply_text,
};
use lw_text::{Pos, Shown};
use std::alloc::Global;
use std::process::Abort;
use std::test::Fail;

/// A part of a body, and the message that the body is, as it is printed.
type Row = (&'static str, &'static str);

/// Whole bodies.
const KINDS: [Row; 21] = [
    ("", "BadJson"),
    (" \t\r\n ", "BadJson"),
    (
        "\u{feff}{\"jsonrpc\":\"2.0\",\"method\":\"exit\"}",
        "BadJson",
    ),
    (r#"{"jsonrpc":"2.0","method":"exit"} x"#, "BadJson"),
    (r#"{"jsonrpc":"2.0","method":"\ud800"}"#, "BadJson"),
    (
        r#"{"jsonrpc":"2.0","method":"exit","more":1e999}"#,
        "BadJson",
    ),
    ("7", "BadRequest"),
    (r#"[{"jsonrpc":"2.0","method":"exit"}]"#, "BadRequest"),
    ("{}", "BadRequest"),
    (r#"{"id":1}"#, "BadRequest"),
    (r#"{"jsonrpc":"2.0"}"#, "BadRequest"),
    (r#"{"method":"exit"}"#, "BadRequest"),
    (r#"{"jsonrpc":"1.0","method":"exit"}"#, "BadRequest"),
    (r#"{"jsonrpc":2.0,"method":"exit"}"#, "BadRequest"),
    (r#"{"jsonrpc":"2.0","method":null}"#, "BadRequest"),
    (r#"{"jsonrpc":"2.0","id":1,"method":7}"#, "BadRequest"),
    (r#"{"jsonrpc":"2.0","id":1,"result":null}"#, "Response"),
    (r#"{"jsonrpc":null,"id":null,"error":{}}"#, "Response"),
    (
        " {\"jsonrpc\":\"2.0\",\"method\":\"exit\",\"params\":[7],\"more\":{}}\n",
        "Exit",
    ),
    (r#"{"jsonrpc":"2.0","m\u0065thod":"\u0065xit"}"#, "Exit"),
    (
        r#"{"jsonrpc":"1.0","id":1,"method":"exit","jsonrpc":"2.0","id":2,"method":"shutdown"}"#,
        "Shutdown { id: Whole(2) }",
    ),
];

/// The id of a request `initialize`.
const IDS: [Row; 16] = [
    ("0", "Initialize { id: Whole(0) }"),
    ("-1", "Initialize { id: Whole(-1) }"),
    (
        "9223372036854775807",
        "Initialize { id: Whole(9223372036854775807) }",
    ),
    ("9223372036854775808", "BadRequest"),
    (
        "-9223372036854775808",
        "Initialize { id: Whole(-9223372036854775808) }",
    ),
    ("-9223372036854775809", "BadRequest"),
    (r#""a""#, r#"Initialize { id: Words(Name { text: "a" }) }"#),
    (r#""""#, r#"Initialize { id: Words(Name { text: "" }) }"#),
    ("null", "BadRequest"),
    ("1.5", "BadRequest"),
    ("1.0", "BadRequest"),
    ("1e2", "BadRequest"),
    ("-0", "BadRequest"),
    ("true", "BadRequest"),
    ("[1]", "BadRequest"),
    (r#"{"a":1}"#, "BadRequest"),
];

/// The members of a body beside its version: each method in its own kind of message.
const METHODS: [Row; 38] = [
    (
        r#""id":1,"method":"initialize""#,
        "Initialize { id: Whole(1) }",
    ),
    (
        r#""id":"s","method":"shutdown","params":null"#,
        r#"Shutdown { id: Words(Name { text: "s" }) }"#,
    ),
    (
        r#""id":1,"method":"exit""#,
        r#"Unknown { id: Some(Whole(1)), method: Name { text: "exit" } }"#,
    ),
    (
        r#""method":"initialize""#,
        r#"Unknown { id: None, method: Name { text: "initialize" } }"#,
    ),
    (
        r#""method":"shutdown""#,
        r#"Unknown { id: None, method: Name { text: "shutdown" } }"#,
    ),
    (
        r#""method":"$/cancelRequest","params":null"#,
        r#"Unknown { id: None, method: Name { text: "$/cancelRequest" } }"#,
    ),
    (
        r#""method":"Exit""#,
        r#"Unknown { id: None, method: Name { text: "Exit" } }"#,
    ),
    (
        r#""id":1,"method":"textDocument/didOpen""#,
        r#"Unknown { id: Some(Whole(1)), method: Name { text: "textDocument/didOpen" } }"#,
    ),
    (r#""method":"textDocument/didOpen""#, BAD),
    (
        r#""id":1,"method":"textDocument/didChange""#,
        r#"Unknown { id: Some(Whole(1)), method: Name { text: "textDocument/didChange" } }"#,
    ),
    (
        r#""method":"textDocument/DidChange""#,
        r#"Unknown { id: None, method: Name { text: "textDocument/DidChange" } }"#,
    ),
    (r#""method":"textDocument/didChange""#, BAD_EDIT),
    (
        r#""method":"textDocument/definition","params":{"textDocument":{"uri":"u"},"position":{"line":0,"character":0}}"#,
        r#"Unknown { id: None, method: Name { text: "textDocument/definition" } }"#,
    ),
    (
        r#""method":"textDocument/references","params":7"#,
        r#"Unknown { id: None, method: Name { text: "textDocument/references" } }"#,
    ),
    (
        r#""method":"textDocument/rename""#,
        r#"Unknown { id: None, method: Name { text: "textDocument/rename" } }"#,
    ),
    (
        r#""method":"textDocument/completion","params":{"textDocument":{"uri":"u"},"position":{"line":0,"character":0}}"#,
        r#"Unknown { id: None, method: Name { text: "textDocument/completion" } }"#,
    ),
    (
        r#""id":1,"method":"textDocument/didClose","params":{"textDocument":{"uri":"u"}}"#,
        r#"Unknown { id: Some(Whole(1)), method: Name { text: "textDocument/didClose" } }"#,
    ),
    (
        r#""id":1,"method":"workspace/didChangeWatchedFiles","params":{"changes":[]}"#,
        r#"Unknown { id: Some(Whole(1)), method: Name { text: "workspace/didChangeWatchedFiles" } }"#,
    ),
    (
        r#""method":"textDocument/didClose","params":{"a":1,"textDocument":{"version":null,"uri":"file:///m.s"}}"#,
        r#"DidClose { uri: Name { text: "file:///m.s" } }"#,
    ),
    (r#""method":"textDocument/didClose""#, BAD_CLOSE),
    (
        r#""method":"textDocument/didClose","params":{"uri":"u"}"#,
        BAD_CLOSE,
    ),
    (
        r#""method":"textDocument/didClose","params":{"textDocument":"u"}"#,
        BAD_CLOSE,
    ),
    (
        r#""method":"textDocument/didClose","params":{"textDocument":{"uri":null}}"#,
        BAD_CLOSE,
    ),
    (
        r#""method":"workspace/didChangeWatchedFiles","params":{"changes":[{"uri":"a","type":1},{"more":[],"type":2,"uri":""},{"uri":"c","type":7,"type":3}],"b":0}"#,
        r#"DidChangeWatchedFiles { changes: Items { items: [FileChange { uri: Name { text: "a" }, kind: Created }, FileChange { uri: Name { text: "" }, kind: Changed }, FileChange { uri: Name { text: "c" }, kind: Deleted }] } }"#,
    ),
    (
        r#""method":"workspace/didChangeWatchedFiles","params":{"changes":[]}"#,
        "DidChangeWatchedFiles { changes: Items { items: [] } }",
    ),
    (r#""method":"workspace/didChangeWatchedFiles""#, BAD_FILES),
    (
        r#""method":"workspace/didChangeWatchedFiles","params":[]"#,
        BAD_FILES,
    ),
    (
        r#""method":"workspace/didChangeWatchedFiles","params":{"changes":{"uri":"a","type":1}}"#,
        BAD_FILES,
    ),
    (
        r#""method":"workspace/didChangeWatchedFiles","params":{"changes":["a"]}"#,
        BAD_FILES,
    ),
    (
        r#""method":"workspace/didChangeWatchedFiles","params":{"changes":[{"uri":"a","type":1},{"type":1}]}"#,
        BAD_FILES,
    ),
    (
        r#""method":"workspace/didChangeWatchedFiles","params":{"changes":[{"uri":7,"type":1}]}"#,
        BAD_FILES,
    ),
    (
        r#""method":"workspace/didChangeWatchedFiles","params":{"changes":[{"uri":"a"}]}"#,
        BAD_FILES,
    ),
    (
        r#""method":"workspace/didChangeWatchedFiles","params":{"changes":[{"uri":"a","type":0}]}"#,
        BAD_FILES,
    ),
    (
        r#""method":"workspace/didChangeWatchedFiles","params":{"changes":[{"uri":"a","type":4}]}"#,
        BAD_FILES,
    ),
    (
        r#""method":"workspace/didChangeWatchedFiles","params":{"changes":[{"uri":"a","type":-1}]}"#,
        BAD_FILES,
    ),
    (
        r#""method":"workspace/didChangeWatchedFiles","params":{"changes":[{"uri":"a","type":"1"}]}"#,
        BAD_FILES,
    ),
    (
        r#""method":"workspace/didChangeWatchedFiles","params":{"changes":[{"uri":"a","type":1.0}]}"#,
        BAD_FILES,
    ),
    (
        r#""method":"workspace/didChangeWatchedFiles","params":{"changes":[{"uri":"a","type":1e0}]}"#,
        BAD_FILES,
    ),
];

const BAD_DEFINITION: &str =
    r#"BadParams { id: Some(Whole(1)), method: Name { text: "textDocument/definition" } }"#;

const BAD_REFERENCES: &str =
    r#"BadParams { id: Some(Whole(1)), method: Name { text: "textDocument/references" } }"#;

const BAD_RENAME: &str =
    r#"BadParams { id: Some(Whole(1)), method: Name { text: "textDocument/rename" } }"#;

const BAD_COMPLETION: &str =
    r#"BadParams { id: Some(Whole(1)), method: Name { text: "textDocument/completion" } }"#;

/// The last part of a request's method, and its parameters.
const ASKED: [Row; 26] = [
    (
        r#"definition","params":{"textDocument":{"uri":"file:///c.s"},"position":{"line":0,"character":19}}"#,
        r#"Definition { id: Whole(1), uri: Name { text: "file:///c.s" }, position: Pos { line: 0, character: 19 } }"#,
    ),
    (
        r#"definition","params":{"position":{"character":0,"more":[],"line":4294967295},"workDoneToken":1,"textDocument":{"version":null,"uri":""}}"#,
        r#"Definition { id: Whole(1), uri: Name { text: "" }, position: Pos { line: 4294967295, character: 0 } }"#,
    ),
    (r#"definition""#, BAD_DEFINITION),
    (
        r#"definition","params":[{"uri":"u"},{"line":0,"character":0}]"#,
        BAD_DEFINITION,
    ),
    (
        r#"definition","params":{"position":{"line":0,"character":0}}"#,
        BAD_DEFINITION,
    ),
    (
        r#"definition","params":{"textDocument":{"uri":7},"position":{"line":0,"character":0}}"#,
        BAD_DEFINITION,
    ),
    (
        r#"definition","params":{"textDocument":"u","position":{"line":0,"character":0}}"#,
        BAD_DEFINITION,
    ),
    (
        r#"definition","params":{"textDocument":{"uri":"u"}}"#,
        BAD_DEFINITION,
    ),
    (
        r#"definition","params":{"textDocument":{"uri":"u"},"position":{"line":0}}"#,
        BAD_DEFINITION,
    ),
    (
        r#"definition","params":{"textDocument":{"uri":"u"},"position":{"line":-1,"character":0}}"#,
        BAD_DEFINITION,
    ),
    (
        r#"definition","params":{"textDocument":{"uri":"u"},"position":{"line":0,"character":4294967296}}"#,
        BAD_DEFINITION,
    ),
    (
        r#"references","params":{"textDocument":{"uri":"file:///c.s"},"position":{"line":0,"character":19},"context":{"includeDeclaration":true}}"#,
        r#"References { id: Whole(1), uri: Name { text: "file:///c.s" }, position: Pos { line: 0, character: 19 }, include_declaration: true }"#,
    ),
    (
        r#"references","params":{"context":{"includeDeclaration":false,"more":0},"position":{"line":0,"character":19},"textDocument":{"uri":"file:///c.s"}}"#,
        r#"References { id: Whole(1), uri: Name { text: "file:///c.s" }, position: Pos { line: 0, character: 19 }, include_declaration: false }"#,
    ),
    (
        r#"references","params":{"textDocument":{"uri":"u"},"position":{"line":0,"character":0},"includeDeclaration":true}"#,
        BAD_REFERENCES,
    ),
    (
        r#"references","params":{"textDocument":{"uri":"u"},"position":{"line":0,"character":0},"context":{}}"#,
        BAD_REFERENCES,
    ),
    (
        r#"references","params":{"textDocument":{"uri":"u"},"position":{"line":0,"character":0},"context":{"includeDeclaration":1}}"#,
        BAD_REFERENCES,
    ),
    (
        r#"references","params":{"textDocument":{"uri":"u"},"position":{"line":0,"character":0},"context":{"includeDeclaration":"true"}}"#,
        BAD_REFERENCES,
    ),
    (
        r#"references","params":{"textDocument":{"uri":"u"},"context":{"includeDeclaration":true}}"#,
        BAD_REFERENCES,
    ),
    (r#"references""#, BAD_REFERENCES),
    (
        r#"rename","params":{"textDocument":{"uri":"file:///m.s"},"position":{"line":0,"character":14},"newName":"b"}"#,
        r#"Rename { id: Whole(1), uri: Name { text: "file:///m.s" }, position: Pos { line: 0, character: 14 }, new_name: Name { text: "b" } }"#,
    ),
    (
        r#"rename","params":{"textDocument":{"uri":"file:///m.s"},"position":{"line":0,"character":14}}"#,
        BAD_RENAME,
    ),
    (
        r#"rename","params":{"textDocument":{"uri":"u"},"position":{"line":0,"character":0},"name":"b","newName":null}"#,
        BAD_RENAME,
    ),
    (
        r#"rename","params":{"textDocument":{"uri":"u"},"newName":"b"}"#,
        BAD_RENAME,
    ),
    (
        r#"rename","params":{"position":{"line":0,"character":0},"newName":"b"}"#,
        BAD_RENAME,
    ),
    (
        r#"completion","params":{"textDocument":{"uri":"file:///b.s"},"position":{"line":0,"character":10},"context":{"triggerKind":1}}"#,
        r#"Completion { id: Whole(1), uri: Name { text: "file:///b.s" }, position: Pos { line: 0, character: 10 } }"#,
    ),
    (
        r#"completion","params":{"textDocument":{"uri":"file:///b.s"}}"#,
        BAD_COMPLETION,
    ),
];

const BAD: &str = r#"BadParams { id: None, method: Name { text: "textDocument/didOpen" } }"#;

const BAD_EDIT: &str = r#"BadParams { id: None, method: Name { text: "textDocument/didChange" } }"#;

const BAD_CLOSE: &str = r#"BadParams { id: None, method: Name { text: "textDocument/didClose" } }"#;

const BAD_FILES: &str =
    r#"BadParams { id: None, method: Name { text: "workspace/didChangeWatchedFiles" } }"#;

const OPENED: &str =
    r#"DidOpen { uri: Name { text: "u" }, version: -9223372036854775808, text: Name { text: "" } }"#;

/// The parameters of `textDocument/didOpen`.
const PARAMS: [Row; 17] = [
    (
        r#"{"textDocument":{"text":"","uri":"u","version":-9223372036854775808}}"#,
        OPENED,
    ),
    (
        r#"{"a":1,"textDocument":{"b":[],"languageId":7,"text":"","uri":"u","version":-9223372036854775808}}"#,
        OPENED,
    ),
    (
        r#"{"textDocument":1,"textDocument":{"text":"t","uri":7,"version":1,"text":"","uri":"u","version":-9223372036854775808}}"#,
        OPENED,
    ),
    ("null", BAD),
    ("[]", BAD),
    (
        r#"[{"textDocument":{"text":"","uri":"u","version":1}}]"#,
        BAD,
    ),
    ("{}", BAD),
    (r#"{"textDocument":null}"#, BAD),
    (r#"{"textDocument":["u",1,""]}"#, BAD),
    (r#"{"textDocument":{"text":"","version":1}}"#, BAD),
    (r#"{"textDocument":{"text":"","uri":"u"}}"#, BAD),
    (r#"{"textDocument":{"uri":"u","version":1}}"#, BAD),
    (
        r#"{"textDocument":{"text":"","uri":null,"version":1}}"#,
        BAD,
    ),
    (r#"{"textDocument":{"text":[],"uri":"u","version":1}}"#, BAD),
    (
        r#"{"textDocument":{"text":"","uri":"u","version":"1"}}"#,
        BAD,
    ),
    (
        r#"{"textDocument":{"text":"","uri":"u","version":1.0}}"#,
        BAD,
    ),
    (
        r#"{"textDocument":{"text":"","uri":"u","version":9223372036854775808}}"#,
        BAD,
    ),
];

/// The parameters of `textDocument/didChange`.
const EDITS: [Row; 7] = [
    (
        r#"{"textDocument":{"uri":"u","version":9223372036854775807},"contentChanges":[]}"#,
        r#"DidChange { uri: Name { text: "u" }, version: 9223372036854775807, changes: Items { items: [] } }"#,
    ),
    (
        r#"{"a":1,"contentChanges":7,"contentChanges":[{"text":7,"rangeLength":"b","text":"t"}],"textDocument":{"languageId":[],"uri":"u","version":0}}"#,
        r#"DidChange { uri: Name { text: "u" }, version: 0, changes: Items { items: [Change { range: None, text: Name { text: "t" } }] } }"#,
    ),
    (r#"{"textDocument":{"uri":"u","version":1}}"#, BAD_EDIT),
    (r#"{"contentChanges":[]}"#, BAD_EDIT),
    (
        r#"{"textDocument":{"uri":"u","version":1},"contentChanges":{"text":""}}"#,
        BAD_EDIT,
    ),
    (
        r#"{"textDocument":{"uri":"u"},"contentChanges":[]}"#,
        BAD_EDIT,
    ),
    (r#"[{"uri":"u","version":1},[]]"#, BAD_EDIT),
];

/// A further change, behind one of the whole text.
const CHANGES: [Row; 14] = [
    (
        r#"{"text":"","range":{"start":{"line":0,"character":4294967295},"end":{"character":2,"line":1}}}"#,
        r#"DidChange { uri: Name { text: "u" }, version: 1, changes: Items { items: [Change { range: None, text: Name { text: "t" } }, Change { range: Some((Pos { line: 0, character: 4294967295 }, Pos { line: 1, character: 2 })), text: Name { text: "" } }] } }"#,
    ),
    ("7", BAD_EDIT),
    ("{}", BAD_EDIT),
    (r#"{"text":null}"#, BAD_EDIT),
    (r#"{"text":"","range":null}"#, BAD_EDIT),
    (r#"{"text":"","range":[]}"#, BAD_EDIT),
    (
        r#"{"text":"","range":{"start":{"line":0,"character":0}}}"#,
        BAD_EDIT,
    ),
    (
        r#"{"text":"","range":{"end":{"line":0,"character":0}}}"#,
        BAD_EDIT,
    ),
    (
        r#"{"text":"","range":{"start":{"line":0},"end":{"line":0,"character":0}}}"#,
        BAD_EDIT,
    ),
    (
        r#"{"text":"","range":{"start":{"line":0,"character":0},"end":{"character":0}}}"#,
        BAD_EDIT,
    ),
    (
        r#"{"text":"","range":{"start":{"line":0,"character":-1},"end":{"line":0,"character":0}}}"#,
        BAD_EDIT,
    ),
    (
        r#"{"text":"","range":{"start":{"line":-0,"character":0},"end":{"line":0,"character":0}}}"#,
        BAD_EDIT,
    ),
    (
        r#"{"text":"","range":{"start":{"line":0,"character":1.0},"end":{"line":2,"character":0}}}"#,
        BAD_EDIT,
    ),
    (
        r#"{"text":"","range":{"start":{"line":0,"character":0},"end":{"line":4294967296,"character":0}}}"#,
        BAD_EDIT,
    ),
];

/// The message that a body is, as it is printed.
fn printed(alloc: Global, body: &[u8]) -> Result<String, NoMemory> {
    let message = read_message(alloc, body)?;
    Ok(format!(in alloc; "{message:?}")?)
}

/// Of each row the part, between `front` and `back`, is a body that is the row's message.
fn are_messages(
    rt: &impl Abort,
    alloc: Global,
    front: &str,
    back: &str,
    rows: &[Row],
) -> Result<(), NoMemory> {
    'rows: for (part, expected) in rows {
        let body = format!(in alloc; "{front}{part}{back}")?;
        let message = printed(alloc, body.as_bytes())?;
        assert!(rt; message.as_str() == *expected, "{body} is {message}");
    }
    Ok(())
}

const NO_TEXT: &[u8] = b"{\"jsonrpc\":\"2.0\",\"method\":\"\xff\"}";

#[test]
fn bodies_are_messages(rt: HostRuntime) -> Result<(), Fail> {
    let message = printed(rt.alloc(), NO_TEXT)?;
    assert!(rt; message.as_str() == "BadJson");
    are_messages(&rt, rt.alloc(), "", "", &KINDS)?;
    Ok(())
}

#[test]
fn messages_have_ids_methods_and_parameters(rt: HostRuntime) -> Result<(), Fail> {
    let back = r#","jsonrpc":"2.0","method":"initialize","params":[]}"#;
    are_messages(&rt, rt.alloc(), r#"{"id":"#, back, &IDS)?;
    are_messages(&rt, rt.alloc(), r#"{"jsonrpc":"2.0","#, "}", &METHODS)?;
    let front = r#"{"jsonrpc":"2.0","method":"textDocument/didOpen","params":"#;
    are_messages(&rt, rt.alloc(), front, "}", &PARAMS)?;
    Ok(())
}

#[test]
fn requests_ask_about_places(rt: HostRuntime) -> Result<(), Fail> {
    let front = r#"{"jsonrpc":"2.0","id":1,"method":"textDocument/"#;
    are_messages(&rt, rt.alloc(), front, "}", &ASKED)?;
    Ok(())
}

#[test]
fn changes_have_texts_and_ranges(rt: HostRuntime) -> Result<(), Fail> {
    let front = r#"{"jsonrpc":"2.0","method":"textDocument/didChange","params":"#;
    are_messages(&rt, rt.alloc(), front, "}", &EDITS)?;
    let front =
        r#"{"jsonrpc":"2.0","method":"textDocument/didChange","params":{"textDocument":{"uri":"u","version":1},"contentChanges":[{"text":"t"},"#;
    are_messages(&rt, rt.alloc(), front, "]}}", &CHANGES)?;
    Ok(())
}

/// What stands in 127 lists.
const NESTED: [Row; 2] = [("", "BadRequest"), ("[]", "BadJson")];

#[test]
fn bodies_nest(rt: HostRuntime) -> Result<(), Fail> {
    let front = "[".repeat(rt.alloc(), 127)?;
    let back = "]".repeat(rt.alloc(), 127)?;
    are_messages(&rt, rt.alloc(), front.as_str(), back.as_str(), &NESTED)?;
    Ok(())
}

/// The reply is written so.
fn is_text(rt: &impl Abort, alloc: Global, reply: Reply, expected: &str) -> Result<(), NoMemory>
    requires { HasOrderedEdits reply }
{
    let text = reply_text(alloc, &reply)?;
    assert!(rt; text.text() == expected, "{text}");
    Ok(())
}

const HELLO: &str =
    r#"{"id":1,"jsonrpc":"2.0","result":{"capabilities":{"completionProvider":{},"definitionProvider":true,"positionEncoding":"utf-16","referencesProvider":true,"renameProvider":true,"textDocumentSync":{"change":2,"openClose":true}},"serverInfo":{"name":"langbench"}}}"#;

#[test]
fn results_are_written(rt: HostRuntime) -> Result<(), Fail> {
    let alloc = rt.alloc();
    assert_eq!(rt; HELLO.len(), 261);
    is_text(&rt, alloc, Reply::Done(Id::Whole(1), Outcome::Hello), HELLO)?;
    let least = Reply::Done(Id::Whole(i64::MIN), Outcome::Nothing);
    let expected = r#"{"id":-9223372036854775808,"jsonrpc":"2.0","result":null}"#;
    is_text(&rt, alloc, least, expected)?;
    let words = Id::Words(Name::from_text(alloc, r#"a"b"#)?);
    let expected = r#"{"id":"a\"b","jsonrpc":"2.0","result":null}"#;
    is_text(&rt, alloc, Reply::Done(words, Outcome::Nothing), expected)?;
    Ok(())
}

/// A part of the first line of a document.
fn location(alloc: Global, uri: &str, start: u32, end: u32) -> Result<Location, NoMemory> {
    Ok(Location {
        uri: Name::from_text(alloc, uri)?,
        start: Pos {
            line: 0,
            character: start,
        },
        end: Pos {
            line: 0,
            character: end,
        },
    })
}

const SPOT: &str =
    r#"{"id":1,"jsonrpc":"2.0","result":{"range":{"end":{"character":15,"line":0},"start":{"character":14,"line":0}},"uri":"file:///b.s"}}"#;

const SPOTS: &str =
    r#"{"id":1,"jsonrpc":"2.0","result":[{"range":{"end":{"character":20,"line":0},"start":{"character":19,"line":0}},"uri":"file:///c.s"},{"range":{"end":{"character":15,"line":0},"start":{"character":14,"line":0}},"uri":"file:///m.s"}]}"#;

#[test]
fn places_are_written(rt: HostRuntime) -> Result<(), Fail> {
    let alloc = rt.alloc();
    let spot = Outcome::Spot(location(alloc, "file:///b.s", 14, 15)?);
    is_text(&rt, alloc, Reply::Done(Id::Whole(1), spot), SPOT)?;
    let none = Outcome::Spots(Items::new(alloc));
    let expected = r#"{"id":2,"jsonrpc":"2.0","result":[]}"#;
    is_text(&rt, alloc, Reply::Done(Id::Whole(2), none), expected)?;
    let mut list = Items::new(alloc);
    list.push(location(alloc, "file:///c.s", 19, 20)?)?;
    list.push(location(alloc, "file:///m.s", 14, 15)?)?;
    let spots = Outcome::Spots(list);
    is_text(&rt, alloc, Reply::Done(Id::Whole(1), spots), SPOTS)?;
    Ok(())
}

/// The edit of a document that puts `q` in place of a part of its first line.
fn file_edits(alloc: Global, uri: &str, start: u32, end: u32) -> Result<FileEdits, NoMemory>
    ensures { IfOk result (λ file. file.uri ≡ uri.now) }
{
    let mut edits = Items::new(alloc);
    edits.push(TextEdit {
        start: Pos {
            line: 0,
            character: start,
        },
        end: Pos {
            line: 0,
            character: end,
        },
        text: Name::from_text(alloc, "q")?,
    })?;
    Ok(FileEdits {
        uri: Name::from_text(alloc, uri)?,
        edits,
    })
}

fn two_files(alloc: Global) -> Result<Items<FileEdits>, NoMemory>
    ensures { IfOk result AreOrdered }
{
    let mut files = Items::new(alloc);
    files.push(file_edits(alloc, "file:///c.s", 19, 20)?)?;
    files.push(file_edits(alloc, "file:///m.s", 14, 15)?)?;
    Ok(files)
}

const RENAMED: &str =
    r#"{"id":1,"jsonrpc":"2.0","result":{"changes":{"file:///c.s":[{"newText":"q","range":{"end":{"character":20,"line":0},"start":{"character":19,"line":0}}}],"file:///m.s":[{"newText":"q","range":{"end":{"character":15,"line":0},"start":{"character":14,"line":0}}}]}}}"#;

#[test]
fn edits_are_written(rt: HostRuntime) -> Result<(), Fail> {
    let alloc = rt.alloc();
    let none = Outcome::Edits(Items::new(alloc));
    let expected = r#"{"id":2,"jsonrpc":"2.0","result":{"changes":{}}}"#;
    is_text(&rt, alloc, Reply::Done(Id::Whole(2), none), expected)?;
    let edits = Outcome::Edits(two_files(alloc)?);
    is_text(&rt, alloc, Reply::Done(Id::Whole(1), edits), RENAMED)?;
    Ok(())
}

/// The text in place of a part of the first line of a document.
fn offer(alloc: Global, label: &str, start: u32, end: u32) -> Result<CompletionItem, NoMemory> {
    Ok(CompletionItem {
        label: Name::from_text(alloc, label)?,
        kind: 14,
        start: Pos {
            line: 0,
            character: start,
        },
        end: Pos {
            line: 0,
            character: end,
        },
    })
}

const OFFERED: &str =
    r#"{"id":1,"jsonrpc":"2.0","result":[{"kind":14,"label":"state","textEdit":{"newText":"state","range":{"end":{"character":10,"line":0},"start":{"character":8,"line":0}}}}]}"#;

#[test]
fn offers_are_written(rt: HostRuntime) -> Result<(), Fail> {
    let alloc = rt.alloc();
    let none = Outcome::Offers(Items::new(alloc));
    let expected = r#"{"id":2,"jsonrpc":"2.0","result":[]}"#;
    is_text(&rt, alloc, Reply::Done(Id::Whole(2), none), expected)?;
    let mut list = Items::new(alloc);
    list.push(offer(alloc, "state", 8, 10)?)?;
    let offers = Outcome::Offers(list);
    is_text(&rt, alloc, Reply::Done(Id::Whole(1), offers), OFFERED)?;
    Ok(())
}

fn error(alloc: Global, id: Option<Id>, code: i32, message: &str) -> Result<Reply, NoMemory>
    ensures { IfOk result HasOrderedEdits }
{
    Ok(Reply::Error(id, code, Name::from_text(alloc, message)?))
}

#[test]
fn errors_are_written(rt: HostRuntime) -> Result<(), Fail> {
    let unread = error(rt.alloc(), None, -32700, "parse error")?;
    let expected = r#"{"error":{"code":-32700,"message":"parse error"},"id":null,"jsonrpc":"2.0"}"#;
    is_text(&rt, rt.alloc(), unread, expected)?;
    let unknown = error(rt.alloc(), Some(Id::Whole(7)), -32601, "method not found")?;
    let expected =
        r#"{"error":{"code":-32601,"message":"method not found"},"id":7,"jsonrpc":"2.0"}"#;
    is_text(&rt, rt.alloc(), unknown, expected)?;
    Ok(())
}

/// A diagnostic that stands at one place.
fn shown(alloc: Global, place: Pos, code: u8, message: &str) -> Result<Shown, NoMemory> {
    Ok(Shown {
        start: place,
        end: place,
        code,
        message: Name::from_text(alloc, message)?,
    })
}

fn two_shown(alloc: Global) -> Result<Items<Shown>, NoMemory> {
    let far = Pos {
        line: 0,
        character: 4_294_967_295,
    };
    let near = Pos {
        line: 2,
        character: 3,
    };
    let mut list = Items::new(alloc);
    list.push(shown(alloc, far, 1, "")?)?;
    list.push(shown(alloc, near, 5, "twice")?)?;
    Ok(list)
}

const VERSIONED: &str =
    r#"{"jsonrpc":"2.0","method":"textDocument/publishDiagnostics","params":{"diagnostics":[],"uri":"file:///m.s","version":1}}"#;

const TWO: &str =
    r#"{"jsonrpc":"2.0","method":"textDocument/publishDiagnostics","params":{"diagnostics":[{"code":1,"message":"","range":{"end":{"character":4294967295,"line":0},"start":{"character":4294967295,"line":0}},"severity":1},{"code":5,"message":"twice","range":{"end":{"character":3,"line":2},"start":{"character":3,"line":2}},"severity":2}],"uri":"u"}}"#;

#[test]
fn lists_are_published(rt: HostRuntime) -> Result<(), Fail> {
    assert_eq!(rt; VERSIONED.len(), 120);
    let uri = Name::from_text(rt.alloc(), "file:///m.s")?;
    let none = Reply::Publish(uri, Some(1), Items::new(rt.alloc()));
    is_text(&rt, rt.alloc(), none, VERSIONED)?;
    let uri = Name::from_text(rt.alloc(), "u")?;
    let two = Reply::Publish(uri, None, two_shown(rt.alloc())?);
    is_text(&rt, rt.alloc(), two, TWO)?;
    Ok(())
}

#[test]
fn messages_are_logged(rt: HostRuntime) -> Result<(), Fail> {
    let alloc = rt.alloc();
    let message = "\"\\/\u{8}\u{c}\n\r\t\u{0}\u{1f}\u{7f}é\u{2028}\u{1f600}";
    let expected =
        "{\"jsonrpc\":\"2.0\",\"method\":\"window/logMessage\",\"params\":{\"message\":\"\\\"\\\\/\\b\\f\\n\\r\\t\\u0000\\u001f\u{7f}é\u{2028}\u{1f600}\",\"type\":1}}";
    is_text(
        &rt,
        alloc,
        Reply::Log(Name::from_text(alloc, message)?),
        expected,
    )?;
    Ok(())
}
