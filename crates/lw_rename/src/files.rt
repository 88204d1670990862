// What is replaced, document by document.
ghost use Rattle.std.specs.Prelude.{◌≡◌, IfOk, length};
ghost use Rattle.lw_rename.specs.SpansOf.{files_over};

use lw_base::{Items, Name, NoMemory, Span};
use lw_query::View;
use std::alloc::Global;

/// What is replaced in a document: its address, and the spans in their order.
#[derive(Debug, Drop)]
pub struct FileSpans {
    pub uri: Name,
    pub spans: Items<Span>,
}

/// The documents in which something is replaced, in the order of addresses.
pub(crate) fn files_of(
    alloc: Global,
    views: &[View<'_>],
    spans: &[Items<Span>],
) -> Result<Items<FileSpans>, NoMemory>
    requires { length spans.now ≡ length views.now }
    ensures { IfOk result (λ files. files ≡ files_over views.now spans.now) }
{
    let mut files = Items::new(alloc);
    'filing: for i in 0..views.len() {
        let list = spans[i].as_slice();
        if !list.is_empty() {
            files.push(FileSpans {
                uri: views[i].uri.copy(alloc)?,
                spans: Items::from_slice(alloc, list)?,
            })?;
        }
    }
    Ok(files)
}
