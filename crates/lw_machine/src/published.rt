// What is told of a document.
use lw_base::{Items, Name};
use lw_text::Shown;

/// A list of diagnostics that is told of a document: its address, the version that it has at that moment,
/// where it has one, and the list (Language Server Protocol 3.17, "PublishDiagnostics Notification").
#[derive(Debug, Drop)]
pub struct Published {
    pub uri: Name,
    pub version: Option<i64>,
    pub list: Items<Shown>,
}
