// The lifecycle of a session: which messages are answered, refused or dropped by its two facts alone.
ghost use Rattle.std.specs.Prelude.{◌≡◌, [], ◌∷◌, ◌++◌, IfOk, Some, codes, not, ◌&&◌};
ghost use Rattle.lw_conversation.specs.Gate.{Passes, gate, notification, refuses, request as at_request};
ghost use Rattle.lw_rpc.specs.declared.message.Message.{Message};
ghost use Rattle.lw_rpc.specs.declared.message.Message.TheVariants as message_;
ghost use Rattle.lw_rpc.specs.declared.reply.Reply.TheVariants as reply_;
ghost use Rattle.lw_session.specs.Lifecycle.{IsLive, IsStep, passage_of, question_message, telling};

use crate::said::{Asked, Edited, Identifier, Opened, Question};
use lw_base::{Items, Name, NoMemory};
use lw_conversation::{
    Ended, INVALID_PARAMS, INVALID_REQUEST, METHOD_NOT_FOUND, PARSE_ERROR, Phase,
    SERVER_NOT_INITIALIZED,
};
use lw_rpc::{FileChange, Id, Message, Outcome, Reply};
use lw_text::{Change, Pos};
use std::alloc::Global;

/// What is told at a message, and what it leaves.
#[derive(Drop)]
pub(crate) struct Told {
    pub replies: Items<Reply>,
    pub ended: Ended,
    pub phase: Phase,
}

/// What is done with a message.
#[derive(Drop)]
pub(crate) enum Step {
    /// It stops at the gate: it is answered, and no document changes.
    Stops(Told),
    /// It opens a document, in a session that is live.
    Opens(Opened),
    /// It changes a document, in a session that is live.
    Edits(Edited),
    /// It closes the document at this address, in a session that is live.
    Closes(Name),
    /// It tells changes of files, in a session that is live.
    Watches(Items<FileChange>),
    /// It asks about a place, in a session that is live.
    Asks(Asked),
}

/// The step for a message.
pub(crate) fn decide(alloc: Global, phase: Phase, message: Message) -> Result<Step, NoMemory>
    ensures { IfOk result (IsStep phase message) }
{
    match message {
        Message::BadJson => Ok(Step::Stops(bad_json(alloc, phase)?)),
        Message::BadRequest => Ok(Step::Stops(bad_request(alloc, phase)?)),
        Message::Response => Ok(Step::Stops(keeps_silent(alloc, phase))),
        Message::Exit => Ok(Step::Stops(ends(alloc, phase))),
        Message::Initialize { id } => Ok(Step::Stops(initialize(alloc, phase, id)?)),
        Message::Shutdown { id } => Ok(Step::Stops(shutdown(alloc, phase, id)?)),
        Message::Unknown { id, method } => Ok(Step::Stops(unknown(alloc, phase, id, &method)?)),
        Message::BadParams { id, method } => Ok(Step::Stops(malformed(alloc, phase, id, &method)?)),
        Message::DidOpen { uri, version, text } => Ok(opens(alloc, phase, uri, version, text)),
        Message::DidChange {
            uri,
            version,
            changes,
        } => Ok(edits(alloc, phase, uri, version, changes)),
        Message::DidClose { uri } => Ok(closes(alloc, phase, uri)),
        Message::DidChangeWatchedFiles { changes } => Ok(watches(alloc, phase, changes)),
        Message::Definition { id, uri, position } => {
            asks(alloc, phase, id, uri, position, Question::Definition)
        }
        Message::References {
            id,
            uri,
            position,
            include_declaration,
        } => {
            let question = Question::References(include_declaration);
            asks(alloc, phase, id, uri, position, question)
        }
        Message::Rename {
            id,
            uri,
            position,
            new_name,
        } => asks(alloc, phase, id, uri, position, Question::Rename(new_name)),
        Message::Completion { id, uri, position } => {
            asks(alloc, phase, id, uri, position, Question::Completion)
        }
    }
}

fn opens(alloc: Global, phase: Phase, address: Name, version: i64, text: Name) -> Step
    ensures { IsStep phase (message_.DidOpen address version text) result }
{
    let id = Identifier { address, version };
    when_live(alloc, phase, Step::Opens(Opened { id, text }))
}

fn edits(alloc: Global, phase: Phase, address: Name, version: i64, changes: Items<Change>) -> Step
    ensures { IsStep phase (message_.DidChange address version changes) result }
{
    let id = Identifier { address, version };
    when_live(alloc, phase, Step::Edits(Edited { id, changes }))
}

fn closes(alloc: Global, phase: Phase, address: Name) -> Step
    ensures { IsStep phase (message_.DidClose address) result }
{
    when_live(alloc, phase, Step::Closes(address))
}

fn watches(alloc: Global, phase: Phase, changes: Items<FileChange>) -> Step
    ensures { IsStep phase (message_.DidChangeWatchedFiles changes) result }
{
    when_live(alloc, phase, Step::Watches(changes))
}

// The step for a notification, where this is its step in a session that is live: in another it is dropped.
fn when_live(alloc: Global, phase: Phase, step: Step) -> Step
    ensures { (message : Message) → gate phase message ≡ notification phase Passes → (IsLive phase → IsStep phase message step) → IsStep phase message result }
{
    if is_live(phase) {
        step
    } else {
        Step::Stops(keeps_silent(alloc, phase))
    }
}

fn asks(
    alloc: Global,
    phase: Phase,
    id: Id,
    address: Name,
    at: Pos,
    question: Question,
) -> Result<Step, NoMemory>
    ensures { IfOk result (IsStep phase (question_message id address at question)) }
{
    if !is_live(phase) {
        let told = refuse(alloc, phase, id, INVALID_REQUEST, "invalid request")?;
        return Ok(Step::Stops(told));
    }
    Ok(Step::Asks(Asked {
        id,
        address,
        at,
        question,
    }))
}

// `initialize` was answered with a result, and `shutdown` was not.
fn is_live(phase: Phase) -> bool
    ensures { result ≡ (phase.initialized && not phase.shut_down) }
{
    phase.initialized && !phase.shut_down
}

/// Nothing is told.
pub(crate) fn keeps_silent(alloc: Global, phase: Phase) -> Told
    ensures { result ≡ telling phase [] }
{
    Told {
        replies: Items::new(alloc),
        ended: Ended::No,
        phase,
    }
}

/// One reply is told.
pub(crate) fn tells(alloc: Global, phase: Phase, reply: Reply) -> Result<Told, NoMemory>
    ensures { IfOk result (λ told. told ≡ telling phase (reply ∷ [])) }
{
    let mut replies = Items::new(alloc);
    replies.push(reply)?;
    Ok(Told {
        replies,
        ended: Ended::No,
        phase,
    })
}

fn bad_json(alloc: Global, phase: Phase) -> Result<Told, NoMemory>
    ensures { IfOk result (λ told. gate phase message_.BadJson ≡ passage_of told) }
{
    let reply = error(alloc, None, PARSE_ERROR, "parse error")?;
    tells(alloc, phase, reply)
}

fn bad_request(alloc: Global, phase: Phase) -> Result<Told, NoMemory>
    ensures { IfOk result (λ told. gate phase message_.BadRequest ≡ passage_of told) }
{
    let reply = error(alloc, None, INVALID_REQUEST, "invalid request")?;
    tells(alloc, phase, reply)
}

// The session is over.
fn ends(alloc: Global, phase: Phase) -> Told
    ensures { gate phase message_.Exit ≡ passage_of result }
{
    let ended = if phase.shut_down {
        Ended::Clean
    } else {
        Ended::Early
    };
    Told {
        replies: Items::new(alloc),
        ended,
        phase,
    }
}

fn error(alloc: Global, id: Option<Id>, code: i32, message: &str) -> Result<Reply, NoMemory>
    ensures { IfOk result (λ reply. reply ≡ reply_.Error id code message.now) }
{
    Ok(Reply::Error(id, code, Name::from_text(alloc, message)?))
}

/// A line for the log is told.
pub(crate) fn log(alloc: Global, phase: Phase, head: &str, name: &Name) -> Result<Told, NoMemory>
    ensures { IfOk result (λ told. told ≡ telling phase (reply_.Log (head.now ++ name.now) ∷ [])) }
{
    Ok(Told {
        replies: logs(alloc, head, name)?,
        ended: Ended::No,
        phase,
    })
}

/// A line for the log, alone in a list.
pub(crate) fn logs(alloc: Global, head: &str, name: &Name) -> Result<Items<Reply>, NoMemory>
    ensures { IfOk result (λ replies. replies ≡ reply_.Log (head.now ++ name.now) ∷ []) }
{
    let line = format!(in alloc; "{head}{name}")?;
    let mut replies = Items::new(alloc);
    replies.push(Reply::Log(Name::from_string(line)))?;
    Ok(replies)
}

// A request is refused: before `initialize` and after `shutdown` for that, else for its own cause.
fn refuse(alloc: Global, phase: Phase, id: Id, code: i32, message: &str) -> Result<Told, NoMemory>
    ensures { IfOk result (λ told. at_request phase id (refuses phase (Some id) code message.now) ≡ passage_of told) }
{
    let reply = if !phase.initialized {
        error(
            alloc,
            Some(id),
            SERVER_NOT_INITIALIZED,
            "server not initialized",
        )?
    } else if phase.shut_down {
        error(alloc, Some(id), INVALID_REQUEST, "invalid request")?
    } else {
        error(alloc, Some(id), code, message)?
    };
    tells(alloc, phase, reply)
}

fn initialize(alloc: Global, phase: Phase, id: Id) -> Result<Told, NoMemory>
    ensures { IfOk result (λ told. gate phase (message_.Initialize id) ≡ passage_of told) }
{
    if phase.initialized {
        let reply = error(alloc, Some(id), INVALID_REQUEST, "invalid request")?;
        return tells(alloc, phase, reply);
    }
    let mut told = tells(alloc, phase, Reply::Done(id, Outcome::Hello))?;
    told.phase.initialized = true;
    Ok(told)
}

fn shutdown(alloc: Global, phase: Phase, id: Id) -> Result<Told, NoMemory>
    ensures { IfOk result (λ told. gate phase (message_.Shutdown id) ≡ passage_of told) }
{
    if !is_live(phase) {
        return refuse(alloc, phase, id, INVALID_REQUEST, "invalid request");
    }
    let mut told = tells(alloc, phase, Reply::Done(id, Outcome::Nothing))?;
    told.phase.shut_down = true;
    Ok(told)
}

fn unknown(alloc: Global, phase: Phase, id: Option<Id>, method: &Name) -> Result<Told, NoMemory>
    ensures { IfOk result (λ told. gate phase (message_.Unknown id method.now) ≡ passage_of told) }
{
    match id {
        Some(id) => refuse(alloc, phase, id, METHOD_NOT_FOUND, "method not found"),
        None => Ok(keeps_silent(alloc, phase)),
    }
}

fn malformed(alloc: Global, phase: Phase, id: Option<Id>, method: &Name) -> Result<Told, NoMemory>
    ensures { IfOk result (λ told. gate phase (message_.BadParams id method.now) ≡ passage_of told) }
{
    match id {
        Some(id) => refuse(alloc, phase, id, INVALID_PARAMS, "invalid params"),
        None => {
            if !is_live(phase) {
                return Ok(keeps_silent(alloc, phase));
            }
            log(alloc, phase, "bad params: ", method)
        }
    }
}
