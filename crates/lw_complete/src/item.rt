// What is offered, as it is handed out.
ghost use Rattle.std.specs.Prelude.{◌≡◌};

use lw_base::Name;

/// The kind of a keyword. Language Server Protocol 3.17, `CompletionItemKind`.
pub const KEYWORD_ITEM: u8 = 14;

/// The kind of a name that refers to something. Language Server Protocol 3.17, `CompletionItemKind`.
pub const REFERENCE_ITEM: u8 = 18;

/// One thing that may be written in place of the word that is being typed. Items are compared by their labels, then by their kinds.
#[derive(Debug, Drop, PartialEq, Eq, PartialOrd, Ord)]
pub struct Item {
    /// What is written.
    pub label: Name,
    /// A keyword ([`KEYWORD_ITEM`]) or a name ([`REFERENCE_ITEM`]).
    pub kind: u8,
    /// Where the word begins, as a byte offset counted from zero.
    pub from: u32,
    /// Where it ends: the offset that was asked about.
    pub to: u32,
}

/// The kinds of items are the numbers that the Language Server Protocol 3.17 fixes ("CompletionItemKind").
pub fn kinds_of_items()
    ensures keyword { KEYWORD_ITEM ≡ 14 }
    ensures reference { REFERENCE_ITEM ≡ 18 }
{}
