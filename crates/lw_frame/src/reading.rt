// A stream read message by message.
ghost use Rattle.std.specs.Prelude.{◌≡◌, ◌≤◌, ◌+◌, ◌++◌, List, ℕ, length, IfOk, OnOk, OnErr, IfNone, IsTrue};
ghost use Rattle.lw_frame.specs.Frames.{bodies_of, fault_of};
ghost use Rattle.lw_frame.specs.Reading.{bytes_of, is_waiting, Feeds, IsRead, IsSame, KeepsFront, ReadsMessages, ReadsTo};
ghost use Rattle.lw_frame.specs.declared.limits.TheConstants.{LONGEST_SESSION};

use crate::incoming::Incoming;
use crate::{Body, FrameFault};
use lw_base::NoMemory;
use std::alloc::Global;
use std::collections::VecDeque;
use std::mem;

/// The bodies of the messages at the head of bytes that begin at offset `start` of the stream, and
/// the message behind them.
fn messages(alloc: Global, start: u64, bytes: &[u8]) -> Result<(VecDeque<Body>, Incoming), NoMemory>
    requires { start + length bytes.now ≤ LONGEST_SESSION }
    ensures { IfOk result (λ read. ReadsMessages start bytes.now read.0.items read.1) }
{
    let mut bodies = VecDeque::new(alloc);
    let mut incoming = Incoming::new(alloc, start);
    let mut used: usize = 0;
    'messages: while used < bytes.len() {
        used += incoming.advance(&bytes[used..])?;
        if !incoming.is_whole() {
            return Ok((bodies, incoming));
        }
        let next = Incoming::new(alloc, incoming.end());
        bodies.push_back(mem::replace(&mut incoming, next).into_body())?;
    }
    Ok((bodies, incoming))
}

/// Takes a piece of the stream: the bodies that it finishes come to the end of `finished`. A refusal
/// leaves what was there at the front.
fn take(
    alloc: Global,
    finished: &mut VecDeque<Body>,
    incoming: &mut Incoming,
    piece: &[u8],
) -> Result<(), NoMemory>
    requires read { IsRead incoming.old }
    requires session { incoming.old.start + length (bytes_of incoming.old) + length piece.now ≤ LONGEST_SESSION }
    ensures ok { OnOk result ((bodies : List (List ℕ)) × (finished.new.items ≡ finished.old.items ++ bodies)
        × ReadsMessages incoming.old.start (bytes_of incoming.old ++ piece.now) bodies incoming.new) }
    ensures err { OnErr result (finished.new.items ≡ finished.old.items) }
    ensures front { OnErr result (KeepsFront incoming.old incoming.new) }
{
    let used = incoming.advance(piece)?;
    if !incoming.is_whole() {
        return Ok(());
    }
    let (mut bodies, next) = messages(alloc, incoming.end(), &piece[used..])?;
    finished.reserve(bodies.len() + 1)?;
    finished.push_back_reserved(mem::replace(incoming, next).into_body());
    finished.append(&mut bodies).unwrap();
    Ok(())
}

/// Takes a piece of the stream, or changes nothing. Answers the fault that it leads to.
fn read_piece(
    alloc: Global,
    finished: &mut VecDeque<Body>,
    incoming: &mut Incoming,
    piece: &[u8],
) -> Result<Option<FrameFault>, NoMemory>
    requires read { IsRead incoming.old }
    requires session { incoming.old.start + length (bytes_of incoming.old) + length piece.now ≤ LONGEST_SESSION }
    ensures ok { IfOk result (λ fault. (bodies : List (List ℕ)) × (finished.new.items ≡ finished.old.items ++ bodies)
        × ReadsTo fault incoming.old.start (bytes_of incoming.old ++ piece.now) bodies incoming.new) }
    ensures err { OnErr result (finished.new.items ≡ finished.old.items) }
    ensures same { OnErr result (IsSame incoming.old incoming.new) }
{
    let mark = incoming.mark();
    match take(alloc, finished, incoming, piece) {
        Ok(()) => match incoming.fault() {
            None => Ok(None),
            Some(fault) => {
                *incoming = Incoming::new(alloc, 0);
                Ok(Some(fault))
            }
        },
        Err(error) => {
            incoming.back_to(mark);
            Err(error)
        }
    }
}

/// Takes a piece of the stream, or drops it where the stream has ended in `fault`. Answers the fault
/// that it has ended in then. A refusal changes nothing.
pub(crate) fn feed_piece(
    alloc: Global,
    fault: Option<FrameFault>,
    finished: &mut VecDeque<Body>,
    incoming: &mut Incoming,
    piece: &[u8],
) -> Result<Option<FrameFault>, NoMemory>
    requires read { IfNone fault (IsRead incoming.old) }
    requires session { IfNone fault (incoming.old.start + length (bytes_of incoming.old) + length piece.now ≤ LONGEST_SESSION) }
    ensures ok { IfOk result (λ now. (bodies : List (List ℕ)) × (finished.new.items ≡ finished.old.items ++ bodies)
        × Feeds piece.now fault now incoming.old incoming.new bodies) }
    ensures err { OnErr result (finished.new.items ≡ finished.old.items) }
    ensures same { OnErr result (IsSame incoming.old incoming.new) }
{
    if fault.is_some() {
        return Ok(fault);
    }
    read_piece(alloc, finished, incoming, piece)
}

/// Why no further body comes, where `fault` is known already or the stream ends at `incoming`.
pub(crate) fn fault_now(
    fault: Option<FrameFault>,
    incoming: &Incoming,
    closed: bool,
) -> Option<FrameFault>
    requires { IfNone fault (IsRead incoming.now × IsTrue (is_waiting incoming.now.stage)) }
    ensures { (bytes : List ℕ) → ReadsTo fault 0 bytes (bodies_of bytes) incoming.now → result ≡ fault_of bytes closed }
{
    if fault.is_some() || !closed {
        return fault;
    }
    incoming.truncation()
}
