// What may be written at a place, as an editor is told it.
ghost use Rattle.std.specs.Prelude.{◌≡◌, IfOk, All, true};
ghost use Rattle.std.specs.List.{AllZip};
ghost use Rattle.lw_build.specs.View.{documents};
ghost use Rattle.lw_conversation.specs.Asking.{TellsCompletion};
ghost use Rattle.lw_session.specs.Completing.{IsItemTold, TakesWord};

use crate::locating::asked_at;
use lw_base::{Items, Name, NoMemory};
use lw_build::Workspace;
use lw_complete::{Item, complete};
use lw_rpc::{CompletionItem, Outcome};
use lw_text::{Encoding, Pos, TextDoc};
use std::alloc::Global;

/// What may be written at a place of the document at an address, where all documents are built.
pub(crate) fn completion_at(
    alloc: Global,
    workspace: &Workspace,
    address: &Name,
    at: Pos,
) -> Result<Outcome, NoMemory>
    requires { workspace.now.is_built ≡ true }
    ensures { IfOk result (TellsCompletion workspace.now.setting (documents workspace.now) address.now at) }
{
    let Some(asked) = asked_at(workspace, address, at) else {
        return Ok(Outcome::Offers(Items::new(alloc)));
    };
    let Some(text) = workspace.text_of(address) else {
        unreachable!()
    };
    workspace.agrees();
    let offered = complete(
        alloc,
        workspace.language(),
        workspace.index(),
        asked.doc,
        text.as_name(),
        asked.off,
    )?;
    let items = told_items(alloc, text, offered.as_slice())?;
    Ok(Outcome::Offers(items))
}

/// Items as an editor is told them, in their order.
fn told_items(
    alloc: Global,
    text: &TextDoc,
    items: &[Item],
) -> Result<Items<CompletionItem>, NoMemory>
    requires { All (TakesWord text.now) items.now }
    ensures { IfOk result (λ told. AllZip (IsItemTold text.now) items.now told) }
{
    let mut told = Items::new(alloc);
    'items: for item in items {
        told.push(told_item(alloc, text, item)?)?;
    }
    Ok(told)
}

/// One of them.
fn told_item(alloc: Global, text: &TextDoc, item: &Item) -> Result<CompletionItem, NoMemory>
    requires { TakesWord text.now item.now }
    ensures { IfOk result (IsItemTold text.now item.now) }
{
    Ok(CompletionItem {
        label: item.label.copy(alloc)?,
        kind: item.kind,
        start: text.position(item.from, Encoding::Utf16),
        end: text.position(item.to, Encoding::Utf16),
    })
}
