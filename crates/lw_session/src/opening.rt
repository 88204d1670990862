// The opening of a document: its text is put.
ghost use Rattle.std.specs.Prelude.{◌≡◌, [], IfOk, OnErr};
ghost use Rattle.lw_session.specs.Answering.{IsAnswered};
ghost use Rattle.lw_session.specs.Lifecycle.{IsLive, opened_message};

use crate::lifecycle::{Told, keeps_silent, log};
use crate::said::Opened;
use lw_base::NoMemory;
use lw_build::{WorkFault, Workspace};
use lw_conversation::Phase;
use std::alloc::Global;

/// Puts the text of a document, in a session that is live.
pub(crate) fn open(
    alloc: Global,
    workspace: &mut Workspace,
    phase: Phase,
    opened: Opened,
) -> Result<Told, NoMemory>
    requires { IsLive phase }
    ensures answered { IfOk result (IsAnswered workspace.old workspace.new phase (opened_message opened) []) }
    ensures refused { OnErr result (workspace.new ≡ workspace.old) }
    ensures setting { workspace.new.setting ≡ workspace.old.setting }
{
    workspace.agrees();
    let Opened { id, text } = opened;
    match workspace.put(&id.address, text, Some(id.version), true) {
        Ok(()) => Ok(keeps_silent(alloc, phase)),
        Err(WorkFault::TooLong(_)) => log(alloc, phase, "text too long: ", &id.address),
        Err(WorkFault::TooMany) => log(alloc, phase, "too many documents: ", &id.address),
        Err(_) => Err(NoMemory),
    }
}
