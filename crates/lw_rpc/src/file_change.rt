// What was done to a file.
use lw_base::Name;

/// A change of a file that an editor watches: the file's address, and what was done to it (Language Server
/// Protocol 3.17, "FileEvent").
#[derive(Debug, PartialEq, Eq, Drop)]
pub struct FileChange {
    pub uri: Name,
    pub kind: FileChangeKind,
}

/// What was done to a file (Language Server Protocol 3.17, "FileChangeType").
#[derive(Clone, Copy, Debug, PartialEq, Eq)]
pub enum FileChangeKind {
    /// The file was made: number 1 of the protocol.
    Created,
    /// What the file holds was changed: number 2.
    Changed,
    /// The file was removed: number 3.
    Deleted,
}
