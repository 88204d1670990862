// What happened to a reader. It exists only in proofs, and takes no memory.
ghost use Rattle.std.specs.Prelude.{◌≡◌, List, ℕ};

use std::marker::Model;

/// The bytes that a reader was fed, and how many bodies it has handed out.
#[derive(Drop)]
pub(crate) struct History {
    pub(crate) ghost fed: { List ℕ },
    pub(crate) ghost given: { ℕ },
}

impl Model for History {
    ghost use Rattle.std.specs.Borrow.{ftrue};

    ghost also_owns = { λ _. ftrue };
}

/// One thing that happens to a reader, with what happened before.
#[derive(Clone, Copy, Drop)]
pub(crate) enum Event<'a> {
    /// It begins.
    Begun,
    /// It is fed a piece.
    Fed(&'a History, &'a [u8]),
    /// It hands out a body.
    Given(&'a History),
}

impl History {
    ghost use Rattle.lw_frame.specs.Events.{history_after};

    /// What has happened once the event has.
    pub(crate) fn after(_event: &Event<'_>) -> History
        ensures { result ≡ history_after _event.now }
    {
        History {}
    }
}
