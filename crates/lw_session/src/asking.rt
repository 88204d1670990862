// What is asked about a place: all documents are built first, and the reply comes behind what that publishes.
ghost use Rattle.std.specs.Prelude.{◌≡◌, ◌∷◌, ◌++◌, [], IfOk, OnErr, map, true};
ghost use Rattle.lw_build.specs.View.{documents};
ghost use Rattle.lw_conversation.specs.Answered.{IsCutShort};
ghost use Rattle.lw_conversation.specs.Asking.{RepliesTo, TellsDefinition, TellsReferences};
ghost use Rattle.lw_conversation.specs.Publishing.{as_reply};
ghost use Rattle.lw_session.specs.Answering.{IsAnswered, standing_of};
ghost use Rattle.lw_session.specs.Lifecycle.{IsLive, asked_message, telling};

use crate::completing::completion_at;
use crate::lifecycle::Told;
use crate::locating::{asked_at, location_of, locations_of};
use crate::renaming::rename_at;
use crate::said::{Asked, Question};
use crate::texts::publication;
use lw_base::{Items, Name, NoMemory, Steps};
use lw_build::Workspace;
use lw_conversation::{Ended, Phase};
use lw_machine::Published;
use lw_query::{definition, references};
use lw_rpc::{Outcome, Reply};
use lw_text::Pos;
use std::alloc::Global;
use std::sync::ledger::Ledger;

/// Answers a question, in a session that is live.
pub(crate) fn ask<L: Ledger>(
    alloc: Global,
    workspace: &mut Workspace,
    phase: Phase,
    asked: Asked,
    steps: &mut Steps<L>,
) -> Result<Told, NoMemory>
    requires { IsLive phase }
    ensures answered { IfOk result (IsAnswered workspace.old workspace.new phase (asked_message asked) []) }
    ensures cut_short { OnErr result (IsCutShort workspace.old.setting (standing_of workspace.old phase) (asked_message asked) (standing_of workspace.new phase)) }
    ensures setting { workspace.new.setting ≡ workspace.old.setting }
{
    workspace.agrees();
    let lists = workspace.advance(steps)?;
    workspace.agrees();
    let reply = reply_to(alloc, workspace, asked)?;
    tells_behind(alloc, phase, lists.as_slice(), reply)
}

/// What is replied to a question, where all documents are built.
fn reply_to(alloc: Global, workspace: &Workspace, asked: Asked) -> Result<Reply, NoMemory>
    requires { workspace.now.is_built ≡ true }
    ensures { IfOk result (RepliesTo workspace.now.setting (documents workspace.now) (asked_message asked)) }
{
    let Asked {
        id,
        address,
        at,
        question,
    } = asked;
    match question {
        Question::Definition => {
            let outcome = definition_at(alloc, workspace, &address, at)?;
            Ok(Reply::Done(id, outcome))
        }
        Question::References(declaration) => {
            let outcome = references_at(alloc, workspace, &address, at, declaration)?;
            Ok(Reply::Done(id, outcome))
        }
        Question::Rename(new) => rename_at(alloc, workspace, id, &address, at, &new),
        Question::Completion => {
            let outcome = completion_at(alloc, workspace, &address, at)?;
            Ok(Reply::Done(id, outcome))
        }
    }
}

fn definition_at(
    alloc: Global,
    workspace: &Workspace,
    address: &Name,
    at: Pos,
) -> Result<Outcome, NoMemory>
    requires { workspace.now.is_built ≡ true }
    ensures { IfOk result (TellsDefinition workspace.now.setting (documents workspace.now) address.now at) }
{
    let Some(asked) = asked_at(workspace, address, at) else {
        return Ok(Outcome::Nothing);
    };
    let seen = workspace.seen();
    match definition(&seen, asked.doc, asked.off) {
        Some(spot) => Ok(Outcome::Spot(location_of(alloc, &seen, spot)?)),
        None => Ok(Outcome::Nothing),
    }
}

fn references_at(
    alloc: Global,
    workspace: &Workspace,
    address: &Name,
    at: Pos,
    declaration: bool,
) -> Result<Outcome, NoMemory>
    requires { workspace.now.is_built ≡ true }
    ensures { IfOk result (TellsReferences workspace.now.setting (documents workspace.now) address.now at declaration) }
{
    let Some(asked) = asked_at(workspace, address, at) else {
        return Ok(Outcome::Nothing);
    };
    let seen = workspace.seen();
    match references(alloc, &seen, seen.refs(), asked.doc, asked.off, declaration)? {
        Some(spots) => Ok(Outcome::Spots(locations_of(alloc, &seen, spots.as_slice())?)),
        None => Ok(Outcome::Nothing),
    }
}

/// A reply is told behind the publications of these lists.
fn tells_behind(
    alloc: Global,
    phase: Phase,
    lists: &[Published],
    reply: Reply,
) -> Result<Told, NoMemory>
    ensures { IfOk result (λ told. told ≡ telling phase (map as_reply lists.now ++ reply ∷ [])) }
{
    let mut replies = publications(alloc, lists)?;
    replies.push(reply)?;
    Ok(Told {
        replies,
        ended: Ended::No,
        phase,
    })
}

fn publications(alloc: Global, lists: &[Published]) -> Result<Items<Reply>, NoMemory>
    ensures { IfOk result (λ replies. replies ≡ map as_reply lists.now) }
{
    let mut replies = Items::new(alloc);
    'lists: for list in lists {
        replies.push(publication(alloc, list)?)?;
    }
    Ok(replies)
}
