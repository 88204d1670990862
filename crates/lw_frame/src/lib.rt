//! Message bodies out of a stream of bytes, however the stream is cut into pieces, and messages as
//! bytes, by the base protocol of the Language Server Protocol 3.17.
//!
//! Its model: a stream is its list of bytes. `specs/Frames.antt` says on the whole list which bodies it
//! has and how it is faulty, in the base protocol's words: header part, lines, length, body; what a
//! header part is stands in `specs/Lines.antt` and `specs/Header.antt`. A [`FrameReader`] is seen as the
//! bytes that it was fed, whether the stream was closed, how many bodies it has handed out, and the bytes
//! that it holds; a [`Body`] is seen as its list of bytes. What was fed and how many bodies were handed
//! out exist only in proofs: the reader keeps neither.
//!
//! It promises that the bodies handed out and the fault are those of all pieces joined, that a fault is
//! there for good, that want of memory leaves the reader as it was, that handing out takes no memory,
//! and that the reader holds the bodies that were not handed out, the bytes of the message that is being
//! read, and no more. It says how many bytes can be fed without going past the end of the message that is
//! being read ([`FrameReader::wanted`], defined in `specs/Wanted.antt`), so that a server which takes no
//! more from its source leaves there what is behind the message that it answers last. Each byte of a body
//! is copied once, and once more where its buffer grows; no piece makes it look at earlier bytes of a body
//! again.
//!
//! [`FrameReader::feed`] takes the next piece of a stream, [`FrameReader::close`] ends it, and
//! [`FrameReader::next`] hands out the next body or the fault. [`read_pieces`] gives what a whole stream
//! has that comes in some pieces.
//!
//! A message is written by [`frame`], or as its [`header_part`] with the body behind it. A reader takes
//! back a message that is written, where its body is not longer than [`LONGEST_BODY`]. The limits of a
//! stream are [`LONGEST_SESSION`], [`LONGEST_BODY`] and [`LONGEST_HEADER_PART`].
//!
//! Of the definitions themselves [`streams_grow`] says what stays as a stream goes on. Its bodies stay,
//! and others come behind them. Its fault stays where that does not come from the stream's end, and no
//! body comes behind it.
//!
//! [`limits_of_streams`] says which numbers the limits are: 2^40 bytes of a session, 4,096 of a header part and
//! 16,777,216 of a body.
#![tactic(auto)]

mod body;
mod fault;
mod field;
mod history;
mod incoming;
mod laws;
mod limits;
mod reader;
mod reading;
mod stage;
mod whole;
mod write;

pub use body::Body;
pub use fault::FrameFault;
pub use laws::{limits_of_streams, streams_grow};
pub use limits::{LONGEST_BODY, LONGEST_HEADER_PART, LONGEST_SESSION};
pub use reader::FrameReader;
pub use whole::{Frames, read_pieces};
pub use write::{frame, header_part};
