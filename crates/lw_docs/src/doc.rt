// A document, and why one is not taken.
use lw_base::{Items, Name, NoMemory};
use lw_machine::State;
use lw_text::{Shown, TextDoc};

/// A document of a workspace.
#[derive(Debug, Drop)]
pub struct Doc {
    /// Its address, which no call changes.
    pub uri: Name,
    pub text: TextDoc,
    /// The version that an editor gave its text, where there is one.
    pub version: Option<i64>,
    /// Whether an editor has it open.
    pub is_open: bool,
    /// How far its build has come.
    pub state: State,
    /// The list of diagnostics that was published last, where there is one.
    pub published: Option<Items<Shown>>,
}

/// Why a document was not added.
#[derive(Clone, Copy, Debug, PartialEq, Eq)]
pub enum DocFault {
    /// As many documents are held as there may be: [`MOST_DOCUMENTS`](lw_base::MOST_DOCUMENTS).
    TooMany,
    /// Memory was refused.
    NoMemory,
}

impl From<NoMemory> for DocFault {
    ghost use Rattle.std.specs.Prelude.{◌≡◌};
    ghost use Rattle.lw_docs.specs.declared.doc.DocFault.TheVariants.{NoMemory as Refused};

    ghost from_gives = { λ _ fault. fault ≡ Refused };

    fn from(_: NoMemory) -> Self {
        DocFault::NoMemory
    }
}
