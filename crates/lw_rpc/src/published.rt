// Diagnostics as JSON.
ghost use Rattle.std.specs.Prelude.{◌≡◌, ◌++◌, string_bytes, codes, decimal, IfOk, Some};
ghost use Rattle.lw_rpc.specs.Readable.{ReadsBack, AllReadBack};
ghost use Rattle.lw_rpc.specs.Replies.{diagnostic_text, publish_text, version_text};
ghost use Rattle.lw_rpc.specs.Values as spec;

use crate::lists::{Part, write_list};
use crate::ranges::write_range;
use crate::texts::{write_quoted, write_small, write_whole};
use lw_base::{Name, NoMemory};
use lw_text::Shown;
use std::alloc::Global;

/// The diagnostics of a document (Language Server Protocol 3.17, "PublishDiagnosticsParams").
pub fn write_publish(
    alloc: Global,
    out: &mut String,
    uri: &Name,
    version: &Option<i64>,
    list: &[Shown],
) -> Result<(), NoMemory>
    ensures text { IfOk result (λ _. string_bytes out.new ≡ string_bytes out.old ++ publish_text uri.now version.now list.now) }
    ensures reads { IfOk result (λ _. ReadsBack (spec.notification_value (codes "textDocument/publishDiagnostics") (spec.publish_params uri.now version.now list.now))) }
{
    out.push_str(
        r#"{"jsonrpc":"2.0","method":"textDocument/publishDiagnostics","params":{"diagnostics":["#,
    )?;
    write_list(alloc, out, list)?;
    out.push_str(r#"],"uri":"#)?;
    write_quoted(alloc, out, uri)?;
    write_version(out, version)?;
    out.push_str("}}")?;
    Ok(())
}

/// There only where the document has a version.
fn write_version(out: &mut String, version: &Option<i64>) -> Result<(), NoMemory>
    ensures text { IfOk result (λ _. string_bytes out.new ≡ string_bytes out.old ++ version_text version.now) }
    ensures reads { IfOk result (λ _. AllReadBack (spec.version_member version.now)) }
{
    match version {
        Some(number) => write_member(out, *number),
        None => Ok(()),
    }
}

fn write_member(out: &mut String, version: i64) -> Result<(), NoMemory>
    ensures text { IfOk result (λ _. string_bytes out.new ≡ string_bytes out.old ++ version_text (Some version)) }
    ensures reads { IfOk result (λ _. ReadsBack (spec.whole version)) }
{
    out.push_str(r#","version":"#)?;
    write_whole(out, version)?;
    Ok(())
}

fn write_diagnostic(alloc: Global, out: &mut String, shown: &Shown) -> Result<(), NoMemory>
    ensures text { IfOk result (λ _. string_bytes out.new ≡ string_bytes out.old ++ diagnostic_text shown.now) }
    ensures reads { IfOk result (λ _. ReadsBack (spec.diagnostic_value shown.now)) }
{
    out.push_str(r#"{"code":"#)?;
    write_small(out, shown.code)?;
    out.push_str(r#","message":"#)?;
    write_quoted(alloc, out, &shown.message)?;
    out.push_str(r#","range":"#)?;
    write_range(out, shown.start, shown.end)?;
    write_severity(out, shown.code)?;
    out.push_str("}")?;
    Ok(())
}

fn write_severity(out: &mut String, code: u8) -> Result<(), NoMemory>
    ensures text { IfOk result (λ _. string_bytes out.new ≡ string_bytes out.old ++ (codes ",\"severity\":" ++ decimal (spec.severity code))) }
    ensures reads { IfOk result (λ _. ReadsBack (spec.natural (spec.severity code))) }
{
    out.push_str(r#","severity":"#)?;
    write_small(out, severity(code))
}

impl Part for Shown {
    ghost text = { diagnostic_text };

    ghost value = { spec.diagnostic_value };

    fn write(&self, alloc: Global, out: &mut String) -> Result<(), NoMemory> {
        write_diagnostic(alloc, out, self)
    }
}

fn severity(code: u8) -> u8
    ensures { result ≡ spec.severity code }
{
    if code == 5 { 2 } else { 1 }
}
