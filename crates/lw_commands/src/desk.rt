// What a run leaves behind.
ghost use Rattle.std.specs.Prelude.{◌≡◌};

use lw_session::{Session, Workspace};

/// What a run leaves: nothing, its session, or the workspace that it made.
#[derive(Drop)]
pub enum Desk {
    /// No session was begun, and no workspace was made.
    Empty,
    /// The session of `serve`, as its last message left it.
    Serving(Session),
    /// The workspace of `make`, as its last build left it.
    Made(Workspace),
}

impl Desk {
    /// Leaves a session.
    pub(crate) fn leave(&mut self, session: Session)
        ensures { self.new ≡ Desk.Serving session }
    {
        *self = Desk::Serving(session);
    }

    /// Leaves a workspace that was made.
    pub(crate) fn leave_made(&mut self, workspace: Workspace)
        ensures { self.new ≡ Desk.Made workspace }
    {
        *self = Desk::Made(workspace);
    }
}
