// The changes of a document: they are made all, or none.
ghost use Rattle.std.specs.Prelude.{◌≡◌, ◌++◌, ◌∷◌, [], IfOk, OnErr, codes, decimal};
ghost use Rattle.lw_rpc.specs.declared.reply.Reply.TheVariants as reply_;
ghost use Rattle.lw_session.specs.Answering.{IsAnswered};
ghost use Rattle.lw_session.specs.Lifecycle.{IsLive, edited_message, telling};

use crate::lifecycle::{Told, keeps_silent, log, tells};
use crate::said::Edited;
use lw_base::{Name, NoMemory};
use lw_build::{WorkFault, Workspace};
use lw_conversation::Phase;
use lw_rpc::Reply;
use std::alloc::Global;

/// Changes the text of a document that an editor has open, in a session that is live.
pub(crate) fn edit(
    alloc: Global,
    workspace: &mut Workspace,
    phase: Phase,
    edited: Edited,
) -> Result<Told, NoMemory>
    requires { IsLive phase }
    ensures answered { IfOk result (IsAnswered workspace.old workspace.new phase (edited_message edited) []) }
    ensures refused { OnErr result (workspace.new ≡ workspace.old) }
    ensures setting { workspace.new.setting ≡ workspace.old.setting }
{
    workspace.agrees();
    let Edited { id, changes } = edited;
    if !workspace.is_open(&id.address) {
        return log(alloc, phase, "unknown document: ", &id.address);
    }
    match workspace.edit(&id.address, changes.as_slice(), id.version) {
        Ok(()) => Ok(keeps_silent(alloc, phase)),
        Err(WorkFault::BadRange(number)) => log_bad_range(alloc, phase, number, &id.address),
        Err(WorkFault::TooLong(_)) => log(alloc, phase, "text too long: ", &id.address),
        // Nothing else is refused of a document that is held but memory.
        Err(_) => Err(NoMemory),
    }
}

/// A line for the log is told: a change, by its number, has a range that ends before it starts.
fn log_bad_range(alloc: Global, phase: Phase, number: u64, address: &Name) -> Result<Told, NoMemory>
    ensures { IfOk result (λ told. told ≡ telling phase
        (reply_.Log (codes "bad range in change " ++ decimal number ++ codes " of " ++ address.now) ∷ [])) }
{
    let line = format!(in alloc; "bad range in change {number} of {address}")?;
    tells(alloc, phase, Reply::Log(Name::from_string(line)))
}
