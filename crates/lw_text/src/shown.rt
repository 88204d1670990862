// A diagnostic as an editor is shown it.

use crate::Pos;
use lw_base::Name;

/// A diagnostic of a document, as it is published (Language Server Protocol 3.17, "Diagnostic"): where
/// it begins and where it ends, its code, and its message.
#[derive(Debug, PartialEq, Eq, Drop)]
pub struct Shown {
    pub start: Pos,
    pub end: Pos,
    pub code: u8,
    pub message: Name,
}
