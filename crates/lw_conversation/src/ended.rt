// Whether a session is over.

/// Whether a message ends a session (Language Server Protocol 3.17, "Exit Notification").
#[derive(Clone, Copy, Debug, PartialEq, Eq)]
pub enum Ended {
    /// It does not.
    No,
    /// It is `exit` after a `shutdown` that was answered with a result.
    Clean,
    /// It is `exit` without such a `shutdown`.
    Early,
}
