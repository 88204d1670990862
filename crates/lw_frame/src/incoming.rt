// The message that is being read.
ghost use Rattle.std.specs.Prelude.{◌≡◌, ◌≤◌, ◌<◌, ◌+◌, ◌↔◌, ◌++◌, [], length, take, drop, IsTrue, IfOk, OnErr, OnOk, true, false, position};
ghost use Rattle.lw_frame.specs.Frames.{rest_fault};
ghost use Rattle.lw_frame.specs.Header.{header_of};
ghost use Rattle.lw_frame.specs.Reading.{bytes_of, failure, is_newline, is_waiting, is_whole, Grows, IsMarkOf, IsRead, IsSame, IsThroughNewline, KeepsFront, EndsBehind, left_at};
ghost use Rattle.lw_frame.specs.Wanted.{fewest_left};
ghost use Rattle.lw_frame.specs.declared.limits.TheConstants.{LONGEST_SESSION};

use crate::stage::{Stage, stage_of};
use crate::{Body, FrameFault, LONGEST_HEADER_PART};
use lw_base::NoMemory;
use std::alloc::Global;

/// The bytes of the shortest header part that gives a length: `Content-Length:0` and two line ends.
const SHORTEST_HEADER: usize = 20;

/// The message that is being read, which begins at offset `start` of the stream: the bytes of its
/// header part and of its body that are there, and the stage that they have reached.
#[derive(Drop)]
pub(crate) struct Incoming {
    start: u64,
    header: Vec<u8>,
    body: Vec<u8>,
    stage: Stage,
}

/// A place to which a message can go back.
#[derive(Clone, Copy)]
pub(crate) struct Mark {
    header: usize,
    body: usize,
    stage: Stage,
}

fn newline_in(bytes: &[u8]) -> Option<usize>
    ensures { result ≡ position is_newline bytes.now }
{
    bytes.iter().position(|byte| *byte == b'\n')
}

/// The bytes up to the first `\n`, and with it, or all.
fn through_newline(bytes: &[u8]) -> &[u8]
    requires { 0 < length bytes.now }
    ensures { IsThroughNewline bytes.now result.now }
{
    match newline_in(bytes) {
        Some(at) => &bytes[..at + 1],
        None => bytes,
    }
}

/// The fewest bytes that end a header part behind its current line so far.
fn least_behind(line: &[u8]) -> usize
    ensures some { 0 < result }
    ensures exact { result ≡ fewest_left line.now }
{
    if line.is_empty() {
        2
    } else if !line.ends_with(b"\r") {
        4
    } else if line.len() == 1 {
        1
    } else {
        3
    }
}

impl Incoming {
    /// A message that begins at this offset, of which no byte is there. It takes no memory.
    pub(crate) fn new(alloc: Global, start: u64) -> Incoming
        ensures start { result.start ≡ start }
        ensures bytes { bytes_of result ≡ [] }
        ensures read { IsRead result }
        ensures waiting { is_waiting result.stage ≡ true }
    {
        Incoming {
            start,
            header: Vec::new(alloc),
            body: Vec::new(alloc),
            stage: Stage::Header {
                line: 0,
                given: None,
            },
        }
    }

    /// The offset behind the bytes that are there.
    pub(crate) fn end(&self) -> u64
        requires { self.now.start + length (bytes_of self.now) ≤ LONGEST_SESSION }
        ensures { result ≡ self.now.start + length (bytes_of self.now) }
    {
        self.start + self.header.len() as u64 + self.body.len() as u64
    }

    pub(crate) fn is_whole(&self) -> bool
        ensures { result ≡ is_whole self.now.stage }
    {
        matches!(self.stage, Stage::Whole)
    }

    /// Why no further body comes.
    pub(crate) fn fault(&self) -> Option<FrameFault>
        ensures { result ≡ failure self.now.stage }
    {
        match self.stage {
            Stage::Failed { fault } => Some(fault),
            _ => None,
        }
    }

    /// Why no further body comes where the stream ends here.
    pub(crate) fn truncation(&self) -> Option<FrameFault>
        requires read { IsRead self.now }
        requires waiting { IsTrue (is_waiting self.now.stage) }
        ensures { result ≡ rest_fault (header_of self.now.start (bytes_of self.now)) (bytes_of self.now) true }
    {
        match self.stage {
            Stage::Header { .. } if !self.header.is_empty() => Some(FrameFault::Truncated(0)),
            Stage::Content { missing } => Some(FrameFault::Truncated(missing)),
            _ => None,
        }
    }

    /// How many bytes can be added at once without going past the end of the message.
    pub(crate) fn wanted(&self) -> usize
        requires read { IsRead self.now }
        requires waiting { IsTrue (is_waiting self.now.stage) }
        ensures some { 0 < result }
        ensures behind { EndsBehind self.now.start (bytes_of self.now) result }
        ensures exact { result ≡ left_at self.now.stage self.now.header.items }
    {
        match self.stage {
            Stage::Header { line, .. } => SHORTEST_HEADER
                .saturating_sub(self.header.len())
                .max(least_behind(&self.header[line..])),
            Stage::Content { missing } => missing as usize,
            _ => 1,
        }
    }

    pub(crate) fn mark(&self) -> Mark
        ensures { IsMarkOf result self.now }
    {
        Mark {
            header: self.header.len(),
            body: self.body.len(),
            stage: self.stage,
        }
    }

    pub(crate) fn back_to(&mut self, mark: Mark)
        ensures start { self.new.start ≡ self.old.start }
        ensures header { self.new.header.items ≡ take mark.header self.old.header.items }
        ensures body { self.new.body.items ≡ take mark.body self.old.body.items }
        ensures stage { self.new.stage ≡ mark.stage }
    {
        self.header.truncate(mark.header);
        self.body.truncate(mark.body);
        self.stage = mark.stage;
    }

    pub(crate) fn into_body(self) -> Body
        ensures { result ≡ self.body.items }
    {
        let Incoming {
            start: _,
            header: _,
            body,
            stage: _,
        } = self;
        Body::from_vec(body)
    }

    /// Takes bytes of the header part, at most to the end of a line.
    fn take_header(
        &mut self,
        line: usize,
        given: Option<u64>,
        piece: &[u8],
    ) -> Result<usize, NoMemory>
        requires stage { self.old.stage ≡ Stage.Header line given }
        requires read { IsRead self.old }
        requires piece { 0 < length piece.now }
        requires session { self.old.start ≤ LONGEST_SESSION }
        ensures some { IfOk result (λ used. 0 < used) }
        ensures ok { IfOk result (Grows self.old self.new piece.now) }
        ensures err { OnErr result (IsSame self.old self.new) }
        ensures front { KeepsFront self.old self.new }
    {
        let room = LONGEST_HEADER_PART - self.header.len();
        let near = through_newline(&piece[..room.min(piece.len())]);
        self.header.extend_from_slice(near)?;
        self.stage = stage_of(self.start, self.header.as_slice(), line, given);
        Ok(near.len())
    }

    /// Takes bytes of the body.
    fn take_body(&mut self, missing: u64, piece: &[u8]) -> Result<usize, NoMemory>
        requires stage { self.old.stage ≡ Stage.Content missing }
        requires read { IsRead self.old }
        ensures ok { IfOk result (Grows self.old self.new piece.now) }
        ensures err { OnErr result (IsSame self.old self.new) }
        ensures front { KeepsFront self.old self.new }
        ensures all { IfOk result (λ used. used < length piece.now → is_whole self.new.stage ≡ true) }
    {
        if missing <= piece.len() as u64 {
            self.body.extend_from_slice(&piece[..missing as usize])?;
            self.stage = Stage::Whole;
            Ok(missing as usize)
        } else {
            self.body.extend_from_slice(piece)?;
            self.stage = Stage::Content {
                missing: missing - piece.len() as u64,
            };
            Ok(piece.len())
        }
    }

    /// Takes the bytes at the head of the piece that belong to this message, and answers how many
    /// they are.
    pub(crate) fn advance(&mut self, piece: &[u8]) -> Result<usize, NoMemory>
        requires read { IsRead self.old }
        requires session { self.old.start ≤ LONGEST_SESSION }
        ensures ok { IfOk result (Grows self.old self.new piece.now) }
        ensures all { IfOk result (λ used. used < length piece.now → is_waiting self.new.stage ≡ false) }
        ensures front { KeepsFront self.old self.new }
    {
        let mut used: usize = 0;
        'lines: while let Stage::Header { line, given } = self.stage {
            if used == piece.len() {
                return Ok(used);
            }
            used += self.take_header(line, given, &piece[used..])?;
        }
        if let Stage::Content { missing } = self.stage {
            used += self.take_body(missing, &piece[used..])?;
        }
        Ok(used)
    }
}
