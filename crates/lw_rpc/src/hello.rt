// What the server says of itself.
ghost use Rattle.std.specs.Prelude.{◌≡◌, ◌++◌, string_bytes, IfOk};
ghost use Rattle.lw_rpc.specs.Readable.{ReadsBack};
ghost use Rattle.lw_rpc.specs.Replies.{hello_text};
ghost use Rattle.lw_rpc.specs.Values as spec;

use lw_base::NoMemory;

/// The result of `initialize` (Language Server Protocol 3.17, "InitializeResult").
pub fn write_hello(out: &mut String) -> Result<(), NoMemory>
    ensures text { IfOk result (λ _. string_bytes out.new ≡ string_bytes out.old ++ hello_text) }
    ensures reads { IfOk result (λ _. ReadsBack spec.hello) }
{
    out.push_str(
        r#"{"capabilities":{"completionProvider":{},"definitionProvider":true,"positionEncoding":"utf-16","referencesProvider":true,"renameProvider":true,"textDocumentSync":{"change":2,"openClose":true}},"serverInfo":{"name":"langbench"}}"#,
    )?;
    Ok(())
}
