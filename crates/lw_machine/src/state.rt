// How far a document has come.

/// How far the build of a document has come (Langium documentation, "Document lifecycle"), in the order
/// in which the states are reached.
#[derive(Clone, Copy, Debug, PartialEq, Eq, PartialOrd, Ord, Hash)]
pub enum State {
    /// Its text was put or edited, and nothing is known of it.
    Changed,
    /// It has been parsed.
    Parsed,
    /// Its text is the shown one, and its exports can be found by others.
    IndexedContent,
    /// The symbols of its nodes can be looked up.
    ComputedScopes,
    /// Its references are resolved.
    Linked,
    /// It can be found which references lead where.
    IndexedReferences,
    /// Its diagnostics are those that were published last.
    Validated,
}
