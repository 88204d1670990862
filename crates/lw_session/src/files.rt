// The files of documents: what a store has at an address, and what a document becomes by its file.
ghost use Rattle.std.specs.Prelude.{◌≡◌, ◌≢◌, List, IfOk, OnErr, map};
ghost use Rattle.std.specs.Option.{option_to_list};
ghost use Rattle.lw_conversation.specs.Publishing.{as_reply};
ghost use Rattle.lw_io.specs.Store.{IsInLimit};
ghost use Rattle.lw_rpc.specs.declared.reply.Reply.{Reply};
ghost use Rattle.lw_session.specs.Moving.{IsFoundInStore, MayMove, Moves, PutsFile, RemovesHeld};

use crate::lifecycle::logs;
use lw_base::{Items, Name, NoMemory};
use lw_build::{WorkFault, Workspace};
use lw_io::paths::path_of;
use lw_io::{Found, Store};
use lw_machine::Published;
use lw_rpc::Reply;
use std::alloc::Global;

/// What the store has at the path of an address: nothing where the address has no path.
pub(crate) fn find_file<F: Store>(
    alloc: Global,
    store: &mut F,
    address: &Name,
) -> Result<Found, NoMemory>
    ensures found { IfOk result (IsFoundInStore (F.files store.old) (F.count store.old) (F.count store.new) address.now) }
    ensures limit { IfOk result IsInLimit }
    ensures memory { IfOk result (λ found. found ≢ Found.NoMemory) }
    ensures files { F.files store.new ≡ F.files store.old }
{
    let Some(path) = path_of(alloc, address)? else {
        return Ok(Found::Absent);
    };
    match store.read(alloc, &path) {
        Found::NoMemory => Err(NoMemory),
        found => Ok(found),
    }
}

/// Puts the text of a file at an address, where there is room for it, and answers what is told then.
pub(crate) fn put_file(
    alloc: Global,
    workspace: &mut Workspace,
    address: &Name,
    text: Name,
) -> Result<Items<Reply>, NoMemory>
    ensures put { IfOk result (λ replies. Moves workspace.old workspace.new (λ m n. PutsFile m address.now text n replies)) }
    ensures refused { OnErr result (workspace.new ≡ workspace.old) }
    ensures setting { workspace.new.setting ≡ workspace.old.setting }
{
    workspace.agrees();
    match workspace.put(address, text, None, false) {
        Ok(()) => Ok(Items::new(alloc)),
        Err(WorkFault::TooMany) => logs(alloc, "too many documents: ", address),
        // No text of a store is too long, and nothing else is refused but memory.
        Err(_) => Err(NoMemory),
    }
}

/// Takes out the document at an address, where there is one, and answers what is told then.
pub(crate) fn remove_document(
    alloc: Global,
    workspace: &mut Workspace,
    address: &Name,
) -> Result<Items<Reply>, NoMemory>
    ensures removed { IfOk result (λ replies. Moves workspace.old workspace.new (λ m n. RemovesHeld workspace.old.setting m address.now n replies)) }
    ensures lost { OnErr result (MayMove workspace.old workspace.new (λ m n. (replies : List Reply) × RemovesHeld workspace.old.setting m address.now n replies)) }
    ensures setting { workspace.new.setting ≡ workspace.old.setting }
{
    match workspace.remove(address) {
        Ok(told) => farewells(alloc, told),
        Err(WorkFault::NoDocument) => Ok(Items::new(alloc)),
        Err(_) => Err(NoMemory),
    }
}

// What is published, as replies.
fn farewells(alloc: Global, told: Option<Published>) -> Result<Items<Reply>, NoMemory>
    ensures { IfOk result (λ replies. replies ≡ map as_reply (option_to_list told)) }
{
    let mut replies = Items::new(alloc);
    if let Some(published) = told {
        let Published { uri, version, list } = published;
        replies.push(Reply::Publish(uri, version, list))?;
    }
    Ok(replies)
}
