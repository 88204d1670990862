// The closing of a document: from then on its truth is its file.
ghost use Rattle.std.specs.Prelude.{◌≡◌, ◌++◌, ◌∷◌, [], List, Some, IfOk, OnOk, OnErr, codes};
ghost use Rattle.lw_conversation.specs.Answered.{IsCutShort};
ghost use Rattle.lw_conversation.specs.Closing.{ClosesDocument};
ghost use Rattle.lw_machine.specs.Documents.{Document, Documents};
ghost use Rattle.lw_machine.specs.Events.{closed};
ghost use Rattle.lw_build.specs.Agreeing.{Agrees};
ghost use Rattle.std.specs.FinMap.{get, insert};
ghost use Rattle.lw_rpc.specs.declared.message.Message.TheVariants as message_;
ghost use Rattle.lw_rpc.specs.declared.reply.Reply.{Reply};
ghost use Rattle.lw_rpc.specs.declared.reply.Reply.TheVariants as reply_;
ghost use Rattle.lw_session.specs.Answering.{IsAnsweredBy, standing_of};
ghost use Rattle.lw_session.specs.Lifecycle.{IsLive};
ghost use Rattle.lw_session.specs.Moving.{IsDoneByReads, MayBeDone, MayMove, Moves, RemovesHeld};

use crate::files::{find_file, put_file, remove_document};
use crate::lifecycle::{Told, logs};
use lw_base::{Items, Name, NoMemory};
use lw_build::Workspace;
use lw_conversation::{Ended, Phase};
use lw_io::{Found, Store};
use lw_rpc::Reply;
use std::alloc::Global;

/// Closes the document at an address, in a session that is live.
pub(crate) fn close<F: Store>(
    alloc: Global,
    workspace: &mut Workspace,
    phase: Phase,
    address: &Name,
    store: &mut F,
) -> Result<Told, NoMemory>
    requires { IsLive phase }
    ensures answered { IfOk result (IsAnsweredBy (F.files store.old) (F.count store.old) (F.count store.new) workspace.old workspace.new phase
        (message_.DidClose address.now)) }
    ensures cut_short { OnErr result (IsCutShort workspace.old.setting (standing_of workspace.old phase) (message_.DidClose address.now) (standing_of workspace.new phase)) }
    ensures setting { workspace.new.setting ≡ workspace.old.setting }
    ensures files { F.files store.new ≡ F.files store.old }
{
    workspace.agrees();
    let replies = close_document(alloc, workspace, address, store);
    workspace.agrees();
    Ok(Told {
        replies: replies?,
        ended: Ended::No,
        phase,
    })
}

// Closes a document that an editor has open, and answers what is told.
fn close_document<F: Store>(
    alloc: Global,
    workspace: &mut Workspace,
    address: &Name,
    store: &mut F,
) -> Result<Items<Reply>, NoMemory>
    ensures closes { IfOk result (IsDoneByReads (F.files store.old) (F.count store.old) (F.count store.new) workspace.old workspace.new
        (λ m. ClosesDocument workspace.old.setting m address.now)) }
    ensures lost { OnErr result (MayBeDone workspace.old workspace.new (λ m. ClosesDocument workspace.old.setting m address.now)) }
    ensures setting { workspace.new.setting ≡ workspace.old.setting }
    ensures files { F.files store.new ≡ F.files store.old }
{
    if !workspace.is_open(address) {
        return logs(alloc, "unknown document: ", address);
    }
    match find_file(alloc, store, address)? {
        Found::Text(text) => put_file(alloc, workspace, address, text),
        Found::Absent => remove_document(alloc, workspace, address),
        Found::NotUtf8 => remove_and_log(alloc, workspace, address, "not UTF-8: "),
        Found::TooLong => remove_and_log(alloc, workspace, address, "file too long: "),
        Found::Failed => set_closed_and_log(alloc, workspace, address),
        Found::NoMemory => Err(NoMemory),
    }
}

// Takes out the document at an address, where there is one, and answers what is told then, and a line for the log behind it.
fn remove_and_log(
    alloc: Global,
    workspace: &mut Workspace,
    address: &Name,
    head: &str,
) -> Result<Items<Reply>, NoMemory>
    ensures removed { IfOk result (λ replies. Moves workspace.old workspace.new (λ m n. (farewells : List Reply) ×
        RemovesHeld workspace.old.setting m address.now n farewells × (replies ≡ farewells ++ reply_.Log (head.now ++ address.now) ∷ []))) }
    ensures lost { OnErr result (MayMove workspace.old workspace.new (λ m n. (replies : List Reply) × RemovesHeld workspace.old.setting m address.now n replies)) }
    ensures setting { workspace.new.setting ≡ workspace.old.setting }
{
    let lines = logs(alloc, head, address)?;
    let mut replies = remove_document(alloc, workspace, address)?;
    replies.append(lines)?;
    Ok(replies)
}

// Says that no editor has the document at an address open any more, whose file could not be read, and answers a line for the log.
fn set_closed_and_log(
    alloc: Global,
    workspace: &mut Workspace,
    address: &Name,
) -> Result<Items<Reply>, NoMemory>
    ensures told { IfOk result (λ replies. replies ≡ reply_.Log (codes "store failed: " ++ address.now) ∷ []) }
    ensures closed { OnOk result ((m : Documents) → Agrees workspace.old m → (d : Document) → get m address.now ≡ Some d →
        Agrees workspace.new (insert m address.now (closed d))) }
    ensures refused { OnErr result (workspace.new ≡ workspace.old) }
    ensures setting { workspace.new.setting ≡ workspace.old.setting }
{
    let replies = logs(alloc, "store failed: ", address)?;
    workspace.set_closed(address);
    Ok(replies)
}
