// What is to be changed in documents, as JSON.
ghost use Rattle.std.specs.Prelude.{◌≡◌, ◌++◌, string_bytes, IfOk};
ghost use Rattle.lw_rpc.specs.Readable.{ReadsBack};
ghost use Rattle.lw_rpc.specs.Replies.{edit_text, edits_text, file_text, replacement_text, AreOrdered};
ghost use Rattle.lw_rpc.specs.Values as spec;

use crate::lists::{Part, write_list};
use crate::ranges::write_range;
use crate::texts::write_quoted;
use crate::{FileEdits, TextEdit};
use lw_base::{Name, NoMemory};
use lw_text::Pos;
use std::alloc::Global;

/// What is to be changed, document by document (Language Server Protocol 3.17, "WorkspaceEdit").
pub fn write_edits(alloc: Global, out: &mut String, files: &[FileEdits]) -> Result<(), NoMemory>
    requires { AreOrdered files.now }
    ensures text { IfOk result (λ _. string_bytes out.new ≡ string_bytes out.old ++ edits_text files.now) }
    ensures reads { IfOk result (λ _. ReadsBack (spec.edits_value files.now)) }
{
    out.push_str(r#"{"changes":{"#)?;
    write_list(alloc, out, files)?;
    out.push_str("}}")?;
    Ok(())
}

/// The edits of a document, under its address.
fn write_file(alloc: Global, out: &mut String, file: &FileEdits) -> Result<(), NoMemory>
    ensures text { IfOk result (λ _. string_bytes out.new ≡ string_bytes out.old ++ file_text file.now) }
    ensures reads { IfOk result (λ _. ReadsBack (spec.file_member file.now).1) }
{
    write_quoted(alloc, out, &file.uri)?;
    out.push_str(":[")?;
    write_list(alloc, out, file.edits.as_slice())?;
    out.push_str("]")?;
    Ok(())
}

impl Part for FileEdits {
    ghost text = { file_text };

    ghost value = { λ file. (spec.file_member file).1 };

    fn write(&self, alloc: Global, out: &mut String) -> Result<(), NoMemory> {
        write_file(alloc, out, self)
    }
}

impl Part for TextEdit {
    ghost text = { edit_text };

    ghost value = { spec.edit_value };

    fn write(&self, alloc: Global, out: &mut String) -> Result<(), NoMemory> {
        write_replacement(alloc, out, &self.text, self.start, self.end)
    }
}

/// The text in place of what stands from the start up to the end (Language Server Protocol 3.17,
/// "TextEdit").
pub fn write_replacement(
    alloc: Global,
    out: &mut String,
    text: &Name,
    start: Pos,
    end: Pos,
) -> Result<(), NoMemory>
    ensures text { IfOk result (λ _. string_bytes out.new ≡ string_bytes out.old ++ replacement_text text.now start end) }
    ensures reads { IfOk result (λ _. ReadsBack (spec.replacement_value text.now start end)) }
{
    out.push_str(r#"{"newText":"#)?;
    write_quoted(alloc, out, text)?;
    out.push_str(r#","range":"#)?;
    write_range(out, start, end)?;
    out.push_str("}")?;
    Ok(())
}
