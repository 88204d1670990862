// The limits that several crates keep.

/// The longest text that is held, in bytes: a grammar file, a document, a script.
pub const LONGEST_TEXT: usize = 67_108_864;

/// How many documents may be held.
pub const MOST_DOCUMENTS: usize = 65_536;

/// How many documents a generated workspace may have.
pub const GREATEST_WORKSPACE: u32 = 9_999;

/// The longest document that is read by a grammar, in bytes. A longer one has one diagnostic that says so.
pub const LONGEST_DOCUMENT: usize = 2_097_152;
