// A message and the build behind it.
ghost use Rattle.std.specs.Prelude.{◌≡◌, ◌++◌, IfOk, OnErr, All, map};
ghost use Rattle.lw_build.specs.Agreeing.{Agrees};
ghost use Rattle.lw_build.specs.View.{documents};
ghost use Rattle.lw_conversation.specs.Answered.{IsCutShort};
ghost use Rattle.lw_conversation.specs.Publishing.{as_reply};
ghost use Rattle.lw_machine.specs.Documents.{Documents};
ghost use Rattle.lw_rpc.specs.Replies.{HasOrderedEdits};
ghost use Rattle.lw_session.specs.Answering.{IsAnsweredBy, IsBuiltBehind, IsServedBy, standing_of};

use crate::asking::ask;
use crate::closing::close;
use crate::editing::edit;
use crate::lifecycle::{Step, Told, decide};
use crate::opening::open;
use crate::watching::watch;
use lw_base::{Items, NoMemory, Steps};
use lw_build::Workspace;
use lw_conversation::Phase;
use lw_io::Store;
use lw_machine::Published;
use lw_rpc::Message;
use std::alloc::Global;
use std::sync::ledger::Ledger;

/// What is told at a message, and what is published behind it.
#[derive(Drop)]
pub(crate) struct Served {
    pub told: Told,
    pub lists: Items<Published>,
}

/// Does what a message says, and builds what it leaves to build.
pub(crate) fn serve<F: Store, L: Ledger>(
    alloc: Global,
    workspace: &mut Workspace,
    phase: Phase,
    message: Message,
    store: &mut F,
    steps: &mut Steps<L>,
) -> Result<Served, NoMemory>
    ensures served { IfOk result (λ served. IsServedBy (F.files store.old) (F.count store.old) (F.count store.new) workspace.old.setting (standing_of workspace.old phase)
        message (standing_of workspace.new served.told.phase) (served.told.replies ++ map as_reply served.lists) served.told.ended) }
    ensures ordered { IfOk result (λ served. All HasOrderedEdits served.told.replies) }
    ensures cut_short { OnErr result (IsCutShort workspace.old.setting (standing_of workspace.old phase) message (standing_of workspace.new phase)) }
    ensures setting { workspace.new.setting ≡ workspace.old.setting }
    ensures files { F.files store.new ≡ F.files store.old }
{
    let told = answer(alloc, workspace, phase, message, store, steps)?;
    workspace.agrees();
    let lists = build(alloc, workspace, told.phase, steps)?;
    Ok(Served { told, lists })
}

// Does what a message says.
fn answer<F: Store, L: Ledger>(
    alloc: Global,
    workspace: &mut Workspace,
    phase: Phase,
    message: Message,
    store: &mut F,
    steps: &mut Steps<L>,
) -> Result<Told, NoMemory>
    ensures answered { IfOk result (IsAnsweredBy (F.files store.old) (F.count store.old) (F.count store.new) workspace.old workspace.new phase message) }
    ensures cut_short { OnErr result (IsCutShort workspace.old.setting (standing_of workspace.old phase) message (standing_of workspace.new phase)) }
    ensures setting { workspace.new.setting ≡ workspace.old.setting }
    ensures files { F.files store.new ≡ F.files store.old }
{
    match decide(alloc, phase, message)? {
        Step::Stops(told) => {
            workspace.agrees();
            Ok(told)
        }
        Step::Opens(opened) => open(alloc, workspace, phase, opened),
        Step::Edits(edited) => edit(alloc, workspace, phase, edited),
        Step::Closes(address) => close(alloc, workspace, phase, &address, store),
        Step::Watches(changes) => watch(alloc, workspace, phase, changes.as_slice(), store),
        Step::Asks(asked) => ask(alloc, workspace, phase, asked, steps),
    }
}

// Builds all documents to the end, once `initialize` was answered with a result.
fn build<L: Ledger>(
    alloc: Global,
    workspace: &mut Workspace,
    phase: Phase,
    steps: &mut Steps<L>,
) -> Result<Items<Published>, NoMemory>
    ensures built { IfOk result (λ lists. (m : Documents) → Agrees workspace.old m → IsBuiltBehind workspace.old workspace.new phase m lists) }
    ensures refused { OnErr result (workspace.new ≡ workspace.old) }
    ensures setting { workspace.new.setting ≡ workspace.old.setting }
{
    if !phase.initialized {
        return Ok(Items::new(alloc));
    }
    workspace.advance(steps)
}
