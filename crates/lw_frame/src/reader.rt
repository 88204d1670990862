// A stream that comes in pieces.
ghost use Rattle.std.specs.Prelude.{◌≡◌, ◌<◌, ◌≤◌, ◌+◌, length, OnOk, OnErr, false};
ghost use Rattle.lw_frame.specs.declared.limits.TheConstants.{LONGEST_SESSION};

use crate::history::{Event, History};
use crate::incoming::Incoming;
use crate::reading::{fault_now, feed_piece};
use crate::{Body, FrameFault};
use lw_base::NoMemory;
use std::alloc::Global;
use std::collections::VecDeque;
use std::marker::Model;

/// A reader of message bodies. It is fed a stream piece by piece, and hands the bodies of its messages
/// out in order.
///
/// Of each message it takes the header lines up to the first empty one, each ended by `\r\n`; a `\n` or
/// a `\r` that stands alone is part of its line. A line is a name of at least one byte, a colon and a
/// value. Names are compared without ASCII case and taken as they stand; all but `Content-Length` are
/// ignored. Its value, without spaces and tabs around it, is 1 to 10 digits.
#[derive(Drop)]
pub struct FrameReader {
    finished: VecDeque<Body>,
    incoming: Incoming,
    fault: Option<FrameFault>,
    closed: bool,
    alloc: Global,
    history: History,
}

impl Model for FrameReader {
    ghost use Rattle.lw_frame.specs.Stream.{Reader};

    ghost Value = { Reader };

    ghost use Rattle.lw_frame.specs.Kept.{seen_reader, IsKept};

    ghost view = { seen_reader };

    ghost invariant = { IsKept };
}

impl FrameReader {
    ghost use Rattle.lw_frame.specs.Frames.{bodies_of};
    ghost use Rattle.lw_frame.specs.Wanted.{wanted_of, LeavesNothing, StaysWithin};
    ghost use Rattle.lw_frame.specs.Stream.{start, with_piece, at_end, next_answer, AnswersStream, after_next, needed, BodiesStay, FaultStays};

    /// A reader of a stream of which nothing has come. It takes no memory.
    pub fn new(alloc: Global) -> FrameReader
        ensures stream { result.stream ≡ start }
        ensures held { result.held ≡ needed start }
    {
        FrameReader {
            finished: VecDeque::new(alloc),
            incoming: Incoming::new(alloc, 0),
            fault: None,
            closed: false,
            alloc,
            history: History::after(&Event::Begun),
        }
    }

    /// Takes the next piece of the stream, which may be cut anywhere. Behind a fault it is dropped. Where
    /// memory is refused, the reader stays as it was.
    ///
    /// A session has at most 2^40 bytes ([`LONGEST_SESSION`](crate::LONGEST_SESSION)).
    pub fn feed(&mut self, piece: &[u8]) -> Result<(), NoMemory>
        requires open { self.old.stream.closed ≡ false }
        requires session { length self.old.stream.fed + length piece.now ≤ LONGEST_SESSION }
        ensures ok { OnOk result (self.new.stream ≡ with_piece self.old.stream piece.now) }
        ensures err { OnErr result (self.new ≡ self.old) }
        ensures held { self.new.held ≡ needed self.new.stream }
        ensures bodies_stay { BodiesStay self.old.stream self.new.stream }
        ensures fault_stays { FaultStays self.old.stream self.new.stream }
    {
        self.fault = feed_piece(
            self.alloc,
            self.fault,
            &mut self.finished,
            &mut self.incoming,
            piece,
        )?;
        self.history = History::after(&Event::Fed(&self.history, piece));
        Ok(())
    }

    /// How many further bytes can be fed at once, at least one, without going past the end of the
    /// message that is being read. Inside a body they are all that are missing. Inside a header part they
    /// are the fewest that can end it: 2 at the start of a line, 1 behind a `\r` there, 3 behind a `\r`
    /// inside a line, else 4, and as many as are missing of 20 where those are more, since no header part
    /// with a length is shorter than `Content-Length:0` and two line ends. Behind a fault it is 1. The
    /// cost is constant.
    ///
    /// A server that takes no more than this from its source leaves there all that is behind the message
    /// that it answers last: no byte behind `exit` is its own.
    pub fn wanted(&self) -> usize
        ensures exact { result ≡ wanted_of self.now.stream.fed }
        ensures some { 0 < result }
        ensures within { StaysWithin self.now.stream.fed result }
        ensures leaves { LeavesNothing self.now.stream result }
        ensures given { self.now.stream.given ≤ length (bodies_of self.now.stream.fed) }
    {
        if self.fault.is_some() {
            return 1;
        }
        self.incoming.wanted()
    }

    /// Says that the stream has ended.
    pub fn close(&mut self)
        ensures stream { self.new.stream ≡ at_end self.old.stream }
        ensures held { self.new.held ≡ needed self.new.stream }
    {
        self.closed = true;
    }

    /// Hands out the next finished body. Where none is left it answers the fault, the same at each
    /// further call, and where the stream has none, None. It takes no memory.
    ///
    /// # Errors
    ///
    /// The fault of the place that comes first in the stream: a line is judged where its `\r\n` ends, the
    /// 4,096 bytes of a header part where the last of them is there, its length where it has ended; at one
    /// place the line comes first. A stream that is closed inside a message is truncated.
    pub fn next(&mut self) -> Result<Option<Body>, FrameFault>
        ensures answer { result ≡ next_answer self.old.stream }
        ensures cases { AnswersStream self.old.stream result }
        ensures stream { self.new.stream ≡ after_next self.old.stream }
        ensures held { self.new.held ≡ needed self.new.stream }
    {
        if let Some(body) = self.finished.pop_front() {
            self.history = History::after(&Event::Given(&self.history));
            return Ok(Some(body));
        }
        match fault_now(self.fault, &self.incoming, self.closed) {
            Some(fault) => Err(fault),
            None => Ok(None),
        }
    }
}
