// The two facts of a session.

/// How far the life of a session has come (Language Server Protocol 3.17, "Server lifecycle").
#[derive(Clone, Copy, Debug, PartialEq, Eq)]
pub struct Phase {
    /// `initialize` was answered with a result.
    pub initialized: bool,
    /// `shutdown` was answered with a result.
    pub shut_down: bool,
}
