// A whole stream.
ghost use Rattle.std.specs.Prelude.{◌≡◌, ◌≤◌, ◌++◌, drop, length, IfOk, OnOk, true};
ghost use Rattle.lw_frame.specs.Frames.{bodies_of, fault_of, frames};
ghost use Rattle.lw_frame.specs.Pieces.{stream_of};
ghost use Rattle.lw_frame.specs.declared.limits.TheConstants.{LONGEST_SESSION};

use crate::{Body, FrameFault, FrameReader};
use lw_base::{Items, NoMemory};
use std::alloc::Global;

/// What a whole stream gives.
#[derive(Debug, Drop)]
pub struct Frames {
    /// The bodies of its messages, in order.
    pub bodies: Items<Body>,
    /// Why no further body came, where the stream did not end behind a message.
    pub fault: Option<FrameFault>,
}

/// Hands out all bodies that are there, and answers the fault behind them.
pub(crate) fn drain(
    reader: &mut FrameReader,
    bodies: &mut Items<Body>,
) -> Result<Option<FrameFault>, NoMemory>
    requires { reader.old.stream.given ≤ length (bodies_of reader.old.stream.fed) }
    ensures bodies { OnOk result (bodies.new ≡ bodies.old ++ drop reader.old.stream.given (bodies_of reader.old.stream.fed)) }
    ensures given { OnOk result (reader.new.stream.given ≡ length (bodies_of reader.old.stream.fed)) }
    ensures fed { OnOk result (reader.new.stream.fed ≡ reader.old.stream.fed) }
    ensures closed { OnOk result (reader.new.stream.closed ≡ reader.old.stream.closed) }
    ensures fault { IfOk result (λ fault. fault ≡ fault_of reader.old.stream.fed reader.old.stream.closed) }
{
    'bodies: loop {
        match reader.next() {
            Ok(Some(body)) => bodies.push(body)?,
            Ok(None) => return Ok(None),
            Err(fault) => return Ok(Some(fault)),
        }
    }
}

/// The bodies and the fault of a stream that comes in these pieces and then ends. They are those of
/// the bytes joined, so two ways to cut one stream give the same. A stream has at most 2^40 bytes.
pub fn read_pieces(alloc: Global, pieces: &[Vec<u8>]) -> Result<Frames, NoMemory>
    requires { length (stream_of pieces.now) ≤ LONGEST_SESSION }
    ensures { IfOk result (λ read. read ≡ frames (stream_of pieces.now) true) }
{
    let mut reader = FrameReader::new(alloc);
    let mut bodies = Items::new(alloc);
    'pieces: for piece in pieces {
        reader.feed(piece.as_slice())?;
        drain(&mut reader, &mut bodies)?;
    }
    reader.close();
    let fault = drain(&mut reader, &mut bodies)?;
    Ok(Frames { bodies, fault })
}
