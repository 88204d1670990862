// What becomes of documents that are closed and of files that have changed, by what a store answers. The bodies are those of the Language Server
// Protocol 3.17.
use crate::session::{EXIT, GRAMMAR, HELLO, INITIALIZE, SHUTDOWN, STATES, play_over, store_of};
use lw_session::Ended;
use std::test::Fail;

// The fourth read fails: the text stays, and no editor has the document open.
#[test]
fn a_closed_document_is_its_file(rt: HostRuntime) -> Result<(), Fail> {
    let store = store_of(
        rt.alloc(),
        &[("/a.s", b"model a"), ("/bad.s", b"\xff")],
        &[4],
    )?;
    play_over(
        &rt,
        rt.alloc(),
        GRAMMAR,
        store,
        &[
            (
                "{\"jsonrpc\":\"2.0\",\"method\":\"textDocument/didClose\",\"params\":{\"textDocument\":{\"uri\":\"file:///a.s\"}}}",
                "",
                Ended::No,
            ),
            (INITIALIZE, HELLO, Ended::No),
            (
                "{\"jsonrpc\":\"2.0\",\"method\":\"textDocument/didClose\",\"params\":{\"textDocument\":{\"uri\":\"file:///a.s\"}}}",
                "{\"jsonrpc\":\"2.0\",\"method\":\"window/logMessage\",\"params\":{\"message\":\"unknown document: file:///a.s\",\"type\":1}}\n",
                Ended::No,
            ),
            (
                "{\"jsonrpc\":\"2.0\",\"method\":\"textDocument/didOpen\",\"params\":{\"textDocument\":{\"uri\":\"file:///a.s\",\"version\":1,\"text\":\"model\"}}}",
                "{\"jsonrpc\":\"2.0\",\"method\":\"textDocument/publishDiagnostics\",\"params\":{\"diagnostics\":[{\"code\":2,\"message\":\"Unexpected end of text.\",\"range\":{\"end\":{\"character\":5,\"line\":0},\"start\":{\"character\":5,\"line\":0}},\"severity\":1}],\"uri\":\"file:///a.s\",\"version\":1}}\n",
                Ended::No,
            ),
            (
                "{\"jsonrpc\":\"2.0\",\"method\":\"textDocument/didClose\",\"params\":{\"textDocument\":{\"uri\":\"file:///a.s\"}}}",
                "{\"jsonrpc\":\"2.0\",\"method\":\"textDocument/publishDiagnostics\",\"params\":{\"diagnostics\":[],\"uri\":\"file:///a.s\"}}\n",
                Ended::No,
            ),
            (
                "{\"jsonrpc\":\"2.0\",\"method\":\"textDocument/didClose\",\"params\":{\"textDocument\":{\"uri\":\"file:///a.s\"}}}",
                "{\"jsonrpc\":\"2.0\",\"method\":\"window/logMessage\",\"params\":{\"message\":\"unknown document: file:///a.s\",\"type\":1}}\n",
                Ended::No,
            ),
            (
                "{\"jsonrpc\":\"2.0\",\"method\":\"textDocument/didChange\",\"params\":{\"textDocument\":{\"uri\":\"file:///a.s\",\"version\":2},\"contentChanges\":[{\"text\":\"\"}]}}",
                "{\"jsonrpc\":\"2.0\",\"method\":\"window/logMessage\",\"params\":{\"message\":\"unknown document: file:///a.s\",\"type\":1}}\n",
                Ended::No,
            ),
            (
                "{\"jsonrpc\":\"2.0\",\"method\":\"textDocument/didOpen\",\"params\":{\"textDocument\":{\"uri\":\"file:///n.s\",\"version\":1,\"text\":\"model\"}}}",
                "{\"jsonrpc\":\"2.0\",\"method\":\"textDocument/publishDiagnostics\",\"params\":{\"diagnostics\":[{\"code\":2,\"message\":\"Unexpected end of text.\",\"range\":{\"end\":{\"character\":5,\"line\":0},\"start\":{\"character\":5,\"line\":0}},\"severity\":1}],\"uri\":\"file:///n.s\",\"version\":1}}\n",
                Ended::No,
            ),
            (
                "{\"jsonrpc\":\"2.0\",\"method\":\"textDocument/didClose\",\"params\":{\"textDocument\":{\"uri\":\"file:///n.s\"}}}",
                "{\"jsonrpc\":\"2.0\",\"method\":\"textDocument/publishDiagnostics\",\"params\":{\"diagnostics\":[],\"uri\":\"file:///n.s\"}}\n",
                Ended::No,
            ),
            (
                "{\"jsonrpc\":\"2.0\",\"method\":\"textDocument/didClose\",\"params\":{\"textDocument\":{\"uri\":\"file:///n.s\"}}}",
                "{\"jsonrpc\":\"2.0\",\"method\":\"window/logMessage\",\"params\":{\"message\":\"unknown document: file:///n.s\",\"type\":1}}\n",
                Ended::No,
            ),
            (
                "{\"jsonrpc\":\"2.0\",\"method\":\"textDocument/didOpen\",\"params\":{\"textDocument\":{\"uri\":\"untitled:x\",\"version\":1,\"text\":\"model\"}}}",
                "{\"jsonrpc\":\"2.0\",\"method\":\"textDocument/publishDiagnostics\",\"params\":{\"diagnostics\":[{\"code\":2,\"message\":\"Unexpected end of text.\",\"range\":{\"end\":{\"character\":5,\"line\":0},\"start\":{\"character\":5,\"line\":0}},\"severity\":1}],\"uri\":\"untitled:x\",\"version\":1}}\n",
                Ended::No,
            ),
            (
                "{\"jsonrpc\":\"2.0\",\"method\":\"textDocument/didClose\",\"params\":{\"textDocument\":{\"uri\":\"untitled:x\"}}}",
                "{\"jsonrpc\":\"2.0\",\"method\":\"textDocument/publishDiagnostics\",\"params\":{\"diagnostics\":[],\"uri\":\"untitled:x\"}}\n",
                Ended::No,
            ),
            (
                "{\"jsonrpc\":\"2.0\",\"method\":\"textDocument/didOpen\",\"params\":{\"textDocument\":{\"uri\":\"untitled:y\",\"version\":1,\"text\":\"model y\"}}}",
                "{\"jsonrpc\":\"2.0\",\"method\":\"textDocument/publishDiagnostics\",\"params\":{\"diagnostics\":[],\"uri\":\"untitled:y\",\"version\":1}}\n",
                Ended::No,
            ),
            (
                "{\"jsonrpc\":\"2.0\",\"method\":\"textDocument/didClose\",\"params\":{\"textDocument\":{\"uri\":\"untitled:y\"}}}",
                "",
                Ended::No,
            ),
            (
                "{\"jsonrpc\":\"2.0\",\"method\":\"textDocument/didOpen\",\"params\":{\"textDocument\":{\"uri\":\"file:///bad.s\",\"version\":1,\"text\":\"model\"}}}",
                "{\"jsonrpc\":\"2.0\",\"method\":\"textDocument/publishDiagnostics\",\"params\":{\"diagnostics\":[{\"code\":2,\"message\":\"Unexpected end of text.\",\"range\":{\"end\":{\"character\":5,\"line\":0},\"start\":{\"character\":5,\"line\":0}},\"severity\":1}],\"uri\":\"file:///bad.s\",\"version\":1}}\n",
                Ended::No,
            ),
            (
                "{\"jsonrpc\":\"2.0\",\"method\":\"textDocument/didClose\",\"params\":{\"textDocument\":{\"uri\":\"file:///bad.s\"}}}",
                "{\"jsonrpc\":\"2.0\",\"method\":\"textDocument/publishDiagnostics\",\"params\":{\"diagnostics\":[],\"uri\":\"file:///bad.s\"}}\n{\"jsonrpc\":\"2.0\",\"method\":\"window/logMessage\",\"params\":{\"message\":\"not UTF-8: file:///bad.s\",\"type\":1}}\n",
                Ended::No,
            ),
            (
                "{\"jsonrpc\":\"2.0\",\"method\":\"textDocument/didOpen\",\"params\":{\"textDocument\":{\"uri\":\"file:///a.s\",\"version\":2,\"text\":\"model m n\"}}}",
                "{\"jsonrpc\":\"2.0\",\"method\":\"textDocument/publishDiagnostics\",\"params\":{\"diagnostics\":[{\"code\":2,\"message\":\"Unexpected ID.\",\"range\":{\"end\":{\"character\":9,\"line\":0},\"start\":{\"character\":8,\"line\":0}},\"severity\":1}],\"uri\":\"file:///a.s\",\"version\":2}}\n",
                Ended::No,
            ),
            (
                "{\"jsonrpc\":\"2.0\",\"method\":\"textDocument/didClose\",\"params\":{\"textDocument\":{\"uri\":\"file:///a.s\"}}}",
                "{\"jsonrpc\":\"2.0\",\"method\":\"window/logMessage\",\"params\":{\"message\":\"store failed: file:///a.s\",\"type\":1}}\n",
                Ended::No,
            ),
            (
                "{\"jsonrpc\":\"2.0\",\"method\":\"textDocument/didClose\",\"params\":{\"textDocument\":{\"uri\":\"file:///a.s\"}}}",
                "{\"jsonrpc\":\"2.0\",\"method\":\"window/logMessage\",\"params\":{\"message\":\"unknown document: file:///a.s\",\"type\":1}}\n",
                Ended::No,
            ),
            (
                "{\"jsonrpc\":\"2.0\",\"method\":\"workspace/didChangeWatchedFiles\",\"params\":{\"changes\":[{\"uri\":\"file:///a.s\",\"type\":2}]}}",
                "{\"jsonrpc\":\"2.0\",\"method\":\"textDocument/publishDiagnostics\",\"params\":{\"diagnostics\":[],\"uri\":\"file:///a.s\"}}\n",
                Ended::No,
            ),
        ],
    )?;
    Ok(())
}

// The document that goes out has no file. The other one is read again, and leads nowhere then.
#[test]
fn a_document_that_goes_out_is_told_to_others(rt: HostRuntime) -> Result<(), Fail> {
    let store = store_of(rt.alloc(), &[("/c.s", b"model c")], &[])?;
    play_over(
        &rt,
        rt.alloc(),
        STATES,
        store,
        &[
            (INITIALIZE, HELLO, Ended::No),
            (
                "{\"jsonrpc\":\"2.0\",\"method\":\"textDocument/didOpen\",\"params\":{\"textDocument\":{\"uri\":\"file:///c.s\",\"version\":1,\"text\":\"model c state s to x end\"}}}",
                "{\"jsonrpc\":\"2.0\",\"method\":\"textDocument/publishDiagnostics\",\"params\":{\"diagnostics\":[{\"code\":3,\"message\":\"Could not resolve reference to State named 'x'.\",\"range\":{\"end\":{\"character\":20,\"line\":0},\"start\":{\"character\":19,\"line\":0}},\"severity\":1}],\"uri\":\"file:///c.s\",\"version\":1}}\n",
                Ended::No,
            ),
            (
                "{\"jsonrpc\":\"2.0\",\"method\":\"textDocument/didOpen\",\"params\":{\"textDocument\":{\"uri\":\"file:///m.s\",\"version\":1,\"text\":\"model m state x end\"}}}",
                "{\"jsonrpc\":\"2.0\",\"method\":\"textDocument/publishDiagnostics\",\"params\":{\"diagnostics\":[],\"uri\":\"file:///c.s\",\"version\":1}}\n{\"jsonrpc\":\"2.0\",\"method\":\"textDocument/publishDiagnostics\",\"params\":{\"diagnostics\":[],\"uri\":\"file:///m.s\",\"version\":1}}\n",
                Ended::No,
            ),
            (
                "{\"jsonrpc\":\"2.0\",\"method\":\"textDocument/didClose\",\"params\":{\"textDocument\":{\"uri\":\"file:///m.s\"}}}",
                "{\"jsonrpc\":\"2.0\",\"method\":\"textDocument/publishDiagnostics\",\"params\":{\"diagnostics\":[{\"code\":3,\"message\":\"Could not resolve reference to State named 'x'.\",\"range\":{\"end\":{\"character\":20,\"line\":0},\"start\":{\"character\":19,\"line\":0}},\"severity\":1}],\"uri\":\"file:///c.s\",\"version\":1}}\n",
                Ended::No,
            ),
            (
                "{\"jsonrpc\":\"2.0\",\"method\":\"workspace/didChangeWatchedFiles\",\"params\":{\"changes\":[{\"uri\":\"file:///c.s\",\"type\":3}]}}",
                "",
                Ended::No,
            ),
            (
                "{\"jsonrpc\":\"2.0\",\"method\":\"textDocument/didClose\",\"params\":{\"textDocument\":{\"uri\":\"file:///c.s\"}}}",
                "{\"jsonrpc\":\"2.0\",\"method\":\"textDocument/publishDiagnostics\",\"params\":{\"diagnostics\":[],\"uri\":\"file:///c.s\"}}\n",
                Ended::No,
            ),
        ],
    )?;
    Ok(())
}

// The reads of the numbers 7, 8 and 14 fail. An open document is left alone.
#[test]
fn changes_of_files_are_seen(rt: HostRuntime) -> Result<(), Fail> {
    let store = store_of(
        rt.alloc(),
        &[
            ("/a.s", b"model"),
            ("/b c.s", b"model m"),
            ("/bad.s", b"\xff"),
        ],
        &[7, 8, 14],
    )?;
    play_over(
        &rt,
        rt.alloc(),
        GRAMMAR,
        store,
        &[
            (
                "{\"jsonrpc\":\"2.0\",\"method\":\"workspace/didChangeWatchedFiles\",\"params\":{\"changes\":[{\"uri\":\"file:///a.s\",\"type\":1}]}}",
                "",
                Ended::No,
            ),
            (INITIALIZE, HELLO, Ended::No),
            (
                "{\"jsonrpc\":\"2.0\",\"method\":\"workspace/didChangeWatchedFiles\",\"params\":{\"changes\":[{\"uri\":\"file:///a.s\",\"type\":1}]}}",
                "{\"jsonrpc\":\"2.0\",\"method\":\"textDocument/publishDiagnostics\",\"params\":{\"diagnostics\":[{\"code\":2,\"message\":\"Unexpected end of text.\",\"range\":{\"end\":{\"character\":5,\"line\":0},\"start\":{\"character\":5,\"line\":0}},\"severity\":1}],\"uri\":\"file:///a.s\"}}\n",
                Ended::No,
            ),
            (
                "{\"jsonrpc\":\"2.0\",\"method\":\"workspace/didChangeWatchedFiles\",\"params\":{\"changes\":[{\"uri\":\"file:///a.s\",\"type\":2}]}}",
                "",
                Ended::No,
            ),
            (
                "{\"jsonrpc\":\"2.0\",\"method\":\"workspace/didChangeWatchedFiles\",\"params\":{\"changes\":[{\"uri\":\"file:///n.s\",\"type\":1}]}}",
                "",
                Ended::No,
            ),
            (
                "{\"jsonrpc\":\"2.0\",\"method\":\"workspace/didChangeWatchedFiles\",\"params\":{\"changes\":[{\"uri\":\"file:///n.s\",\"type\":3}]}}",
                "",
                Ended::No,
            ),
            (
                "{\"jsonrpc\":\"2.0\",\"method\":\"workspace/didChangeWatchedFiles\",\"params\":{\"changes\":[{\"uri\":\"untitled:x\",\"type\":2}]}}",
                "",
                Ended::No,
            ),
            (
                "{\"jsonrpc\":\"2.0\",\"method\":\"workspace/didChangeWatchedFiles\",\"params\":{\"changes\":[{\"uri\":\"file:///b%20c.s\",\"type\":1}]}}",
                "{\"jsonrpc\":\"2.0\",\"method\":\"textDocument/publishDiagnostics\",\"params\":{\"diagnostics\":[],\"uri\":\"file:///b%20c.s\"}}\n",
                Ended::No,
            ),
            (
                "{\"jsonrpc\":\"2.0\",\"method\":\"workspace/didChangeWatchedFiles\",\"params\":{\"changes\":[{\"uri\":\"file:///bad.s\",\"type\":1},{\"uri\":\"file:///bad.s\",\"type\":2}]}}",
                "{\"jsonrpc\":\"2.0\",\"method\":\"window/logMessage\",\"params\":{\"message\":\"not UTF-8: file:///bad.s\",\"type\":1}}\n{\"jsonrpc\":\"2.0\",\"method\":\"window/logMessage\",\"params\":{\"message\":\"not UTF-8: file:///bad.s\",\"type\":1}}\n",
                Ended::No,
            ),
            (
                "{\"jsonrpc\":\"2.0\",\"method\":\"textDocument/didOpen\",\"params\":{\"textDocument\":{\"uri\":\"file:///a.s\",\"version\":1,\"text\":\"model a\"}}}",
                "{\"jsonrpc\":\"2.0\",\"method\":\"textDocument/publishDiagnostics\",\"params\":{\"diagnostics\":[],\"uri\":\"file:///a.s\",\"version\":1}}\n",
                Ended::No,
            ),
            (
                "{\"jsonrpc\":\"2.0\",\"method\":\"workspace/didChangeWatchedFiles\",\"params\":{\"changes\":[{\"uri\":\"file:///a.s\",\"type\":2},{\"uri\":\"file:///a.s\",\"type\":3}]}}",
                "",
                Ended::No,
            ),
            (
                "{\"jsonrpc\":\"2.0\",\"method\":\"textDocument/didChange\",\"params\":{\"textDocument\":{\"uri\":\"file:///a.s\",\"version\":2},\"contentChanges\":[{\"text\":\"model\"}]}}",
                "{\"jsonrpc\":\"2.0\",\"method\":\"textDocument/publishDiagnostics\",\"params\":{\"diagnostics\":[{\"code\":2,\"message\":\"Unexpected end of text.\",\"range\":{\"end\":{\"character\":5,\"line\":0},\"start\":{\"character\":5,\"line\":0}},\"severity\":1}],\"uri\":\"file:///a.s\",\"version\":2}}\n",
                Ended::No,
            ),
            (
                "{\"jsonrpc\":\"2.0\",\"method\":\"textDocument/didChange\",\"params\":{\"textDocument\":{\"uri\":\"file:///a.s\",\"version\":3},\"contentChanges\":[{\"text\":\"model a\"}]}}",
                "{\"jsonrpc\":\"2.0\",\"method\":\"textDocument/publishDiagnostics\",\"params\":{\"diagnostics\":[],\"uri\":\"file:///a.s\",\"version\":3}}\n",
                Ended::No,
            ),
            (
                "{\"jsonrpc\":\"2.0\",\"method\":\"textDocument/didClose\",\"params\":{\"textDocument\":{\"uri\":\"file:///a.s\"}}}",
                "{\"jsonrpc\":\"2.0\",\"method\":\"window/logMessage\",\"params\":{\"message\":\"store failed: file:///a.s\",\"type\":1}}\n",
                Ended::No,
            ),
            (
                "{\"jsonrpc\":\"2.0\",\"method\":\"workspace/didChangeWatchedFiles\",\"params\":{\"changes\":[{\"uri\":\"file:///a.s\",\"type\":2}]}}",
                "{\"jsonrpc\":\"2.0\",\"method\":\"window/logMessage\",\"params\":{\"message\":\"store failed: file:///a.s\",\"type\":1}}\n",
                Ended::No,
            ),
            (
                "{\"jsonrpc\":\"2.0\",\"method\":\"workspace/didChangeWatchedFiles\",\"params\":{\"changes\":[{\"uri\":\"file:///a.s\",\"type\":2}]}}",
                "{\"jsonrpc\":\"2.0\",\"method\":\"textDocument/publishDiagnostics\",\"params\":{\"diagnostics\":[{\"code\":2,\"message\":\"Unexpected end of text.\",\"range\":{\"end\":{\"character\":5,\"line\":0},\"start\":{\"character\":5,\"line\":0}},\"severity\":1}],\"uri\":\"file:///a.s\"}}\n",
                Ended::No,
            ),
            (
                "{\"jsonrpc\":\"2.0\",\"method\":\"workspace/didChangeWatchedFiles\",\"params\":{\"changes\":[{\"uri\":\"file:///a.s\",\"type\":3},{\"uri\":\"file:///a.s\",\"type\":3}]}}",
                "{\"jsonrpc\":\"2.0\",\"method\":\"textDocument/publishDiagnostics\",\"params\":{\"diagnostics\":[],\"uri\":\"file:///a.s\"}}\n",
                Ended::No,
            ),
            (
                "{\"jsonrpc\":\"2.0\",\"method\":\"workspace/didChangeWatchedFiles\",\"params\":{\"changes\":[{\"uri\":\"file:///a.s\",\"type\":3}]}}",
                "",
                Ended::No,
            ),
            (
                "{\"jsonrpc\":\"2.0\",\"method\":\"workspace/didChangeWatchedFiles\",\"params\":{\"changes\":[{\"uri\":\"file:///a.s\",\"type\":1},{\"uri\":\"file:///a.s\",\"type\":3}]}}",
                "",
                Ended::No,
            ),
            (
                "{\"jsonrpc\":\"2.0\",\"method\":\"workspace/didChangeWatchedFiles\",\"params\":{\"changes\":[{\"uri\":\"file:///a.s\",\"type\":1},{\"uri\":\"file:///b%20c.s\",\"type\":2},{\"uri\":\"file:///bad.s\",\"type\":2}]}}",
                "{\"jsonrpc\":\"2.0\",\"method\":\"window/logMessage\",\"params\":{\"message\":\"not UTF-8: file:///bad.s\",\"type\":1}}\n{\"jsonrpc\":\"2.0\",\"method\":\"textDocument/publishDiagnostics\",\"params\":{\"diagnostics\":[{\"code\":2,\"message\":\"Unexpected end of text.\",\"range\":{\"end\":{\"character\":5,\"line\":0},\"start\":{\"character\":5,\"line\":0}},\"severity\":1}],\"uri\":\"file:///a.s\"}}\n",
                Ended::No,
            ),
            (
                "{\"jsonrpc\":\"2.0\",\"method\":\"textDocument/didOpen\",\"params\":{\"textDocument\":{\"uri\":\"file:///n.s\",\"version\":1,\"text\":\"model\"}}}",
                "{\"jsonrpc\":\"2.0\",\"method\":\"textDocument/publishDiagnostics\",\"params\":{\"diagnostics\":[{\"code\":2,\"message\":\"Unexpected end of text.\",\"range\":{\"end\":{\"character\":5,\"line\":0},\"start\":{\"character\":5,\"line\":0}},\"severity\":1}],\"uri\":\"file:///n.s\",\"version\":1}}\n",
                Ended::No,
            ),
            (
                "{\"jsonrpc\":\"2.0\",\"method\":\"textDocument/didClose\",\"params\":{\"textDocument\":{\"uri\":\"file:///n.s\"}}}",
                "{\"jsonrpc\":\"2.0\",\"method\":\"window/logMessage\",\"params\":{\"message\":\"store failed: file:///n.s\",\"type\":1}}\n",
                Ended::No,
            ),
            (
                "{\"jsonrpc\":\"2.0\",\"method\":\"workspace/didChangeWatchedFiles\",\"params\":{\"changes\":[{\"uri\":\"file:///n.s\",\"type\":2}]}}",
                "{\"jsonrpc\":\"2.0\",\"method\":\"textDocument/publishDiagnostics\",\"params\":{\"diagnostics\":[],\"uri\":\"file:///n.s\"}}\n",
                Ended::No,
            ),
            (
                "{\"jsonrpc\":\"2.0\",\"method\":\"workspace/didChangeWatchedFiles\",\"params\":{\"changes\":[{\"uri\":\"file:///n.s\",\"type\":2}]}}",
                "",
                Ended::No,
            ),
            (
                SHUTDOWN,
                "{\"id\":2,\"jsonrpc\":\"2.0\",\"result\":null}\n",
                Ended::No,
            ),
            (
                "{\"jsonrpc\":\"2.0\",\"method\":\"workspace/didChangeWatchedFiles\",\"params\":{\"changes\":[{\"uri\":\"file:///a.s\",\"type\":3}]}}",
                "",
                Ended::No,
            ),
            (
                "{\"jsonrpc\":\"2.0\",\"method\":\"textDocument/didClose\",\"params\":{\"textDocument\":{\"uri\":\"file:///a.s\"}}}",
                "",
                Ended::No,
            ),
            (EXIT, "", Ended::Clean),
        ],
    )?;
    Ok(())
}
