// Changes of files that an editor watches: what no editor has open is read again, or goes out.
ghost use Rattle.std.specs.Prelude.{◌≡◌, IfOk, OnErr};
ghost use Rattle.lw_conversation.specs.Answered.{IsCutShort};
ghost use Rattle.lw_conversation.specs.Watching.{LoadsAgain, SeesChange, SeesChanges};
ghost use Rattle.lw_rpc.specs.declared.message.Message.TheVariants as message_;
ghost use Rattle.lw_session.specs.Answering.{IsAnsweredBy, standing_of};
ghost use Rattle.lw_session.specs.Lifecycle.{IsLive};
ghost use Rattle.lw_session.specs.Moving.{AreSeenInPart, IsDoneByReads, MayBeDone};

use crate::files::{find_file, put_file, remove_document};
use crate::lifecycle::{Told, logs};
use lw_base::{Items, Name, NoMemory};
use lw_build::Workspace;
use lw_conversation::{Ended, Phase};
use lw_io::{Found, Store};
use lw_rpc::{FileChange, FileChangeKind, Reply};
use std::alloc::Global;

/// Sees changes of files, in a session that is live.
pub(crate) fn watch<F: Store>(
    alloc: Global,
    workspace: &mut Workspace,
    phase: Phase,
    changes: &[FileChange],
    store: &mut F,
) -> Result<Told, NoMemory>
    requires { IsLive phase }
    ensures answered { IfOk result (IsAnsweredBy (F.files store.old) (F.count store.old) (F.count store.new) workspace.old workspace.new phase
        (message_.DidChangeWatchedFiles changes.now)) }
    ensures cut_short { OnErr result (IsCutShort workspace.old.setting (standing_of workspace.old phase) (message_.DidChangeWatchedFiles changes.now)
        (standing_of workspace.new phase)) }
    ensures setting { workspace.new.setting ≡ workspace.old.setting }
    ensures files { F.files store.new ≡ F.files store.old }
{
    workspace.agrees();
    let replies = see_all(alloc, workspace, changes, store);
    workspace.agrees();
    Ok(Told {
        replies: replies?,
        ended: Ended::No,
        phase,
    })
}

// Sees the changes in their order, and answers what is told.
fn see_all<F: Store>(
    alloc: Global,
    workspace: &mut Workspace,
    changes: &[FileChange],
    store: &mut F,
) -> Result<Items<Reply>, NoMemory>
    ensures sees { IfOk result (IsDoneByReads (F.files store.old) (F.count store.old) (F.count store.new) workspace.old workspace.new
        (λ m. SeesChanges workspace.old.setting m changes.now)) }
    ensures in_part { OnErr result (AreSeenInPart workspace.old workspace.new changes.now) }
    ensures setting { workspace.new.setting ≡ workspace.old.setting }
    ensures files { F.files store.new ≡ F.files store.old }
{
    let mut replies = Items::new(alloc);
    'changes: for change in changes {
        let told = see(alloc, workspace, change, store)?;
        replies.append(told)?;
    }
    Ok(replies)
}

// Sees one change of a file, and answers what is told.
fn see<F: Store>(
    alloc: Global,
    workspace: &mut Workspace,
    change: &FileChange,
    store: &mut F,
) -> Result<Items<Reply>, NoMemory>
    ensures sees { IfOk result (IsDoneByReads (F.files store.old) (F.count store.old) (F.count store.new) workspace.old workspace.new
        (λ m. SeesChange workspace.old.setting m change.now.uri change.now.kind)) }
    ensures lost { OnErr result (MayBeDone workspace.old workspace.new (λ m. SeesChange workspace.old.setting m change.now.uri change.now.kind)) }
    ensures setting { workspace.new.setting ≡ workspace.old.setting }
    ensures files { F.files store.new ≡ F.files store.old }
{
    if workspace.is_open(&change.uri) {
        return Ok(Items::new(alloc));
    }
    match change.kind {
        FileChangeKind::Deleted => remove_document(alloc, workspace, &change.uri),
        FileChangeKind::Created | FileChangeKind::Changed => {
            load_again(alloc, workspace, &change.uri, store)
        }
    }
}

// Reads a file that was created or changed, and answers what is told.
fn load_again<F: Store>(
    alloc: Global,
    workspace: &mut Workspace,
    address: &Name,
    store: &mut F,
) -> Result<Items<Reply>, NoMemory>
    ensures loads { IfOk result (IsDoneByReads (F.files store.old) (F.count store.old) (F.count store.new) workspace.old workspace.new
        (λ m. LoadsAgain workspace.old.setting m address.now)) }
    ensures lost { OnErr result (MayBeDone workspace.old workspace.new (λ m. LoadsAgain workspace.old.setting m address.now)) }
    ensures setting { workspace.new.setting ≡ workspace.old.setting }
    ensures files { F.files store.new ≡ F.files store.old }
{
    match find_file(alloc, store, address)? {
        Found::Text(text) => put_file(alloc, workspace, address, text),
        Found::Absent => remove_document(alloc, workspace, address),
        Found::NotUtf8 => logs(alloc, "not UTF-8: ", address),
        Found::TooLong => logs(alloc, "file too long: ", address),
        Found::Failed => logs(alloc, "store failed: ", address),
        Found::NoMemory => Err(NoMemory),
    }
}
