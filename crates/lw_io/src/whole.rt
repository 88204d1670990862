// Reading to the end, and writing all.
ghost use Rattle.std.specs.Prelude.{◌≡◌, ◌<◌, ◌≤◌, length, take, IfOk, OnOk, OnErr, IfSome};
ghost use Rattle.std.specs.Io.KnownBytes.{Consumes, IsAtEnd, Appends};
ghost use Rattle.lw_io.specs.Whole.{ReadCounts, TakesFewer, WriteCounts, WritesFront};
ghost use Rattle.lw_io.specs.declared.whole.ReadFault.TheVariants as fault;

use crate::{Read, Sink, Source, Wrote};
use std::alloc::{AllocError, Global};

/// Why a source was not read to its end.
#[derive(Clone, Copy, Debug, PartialEq, Eq)]
pub enum ReadFault {
    /// A read failed.
    Failed,
    /// There was no memory for the bytes.
    NoMemory,
}

impl From<AllocError> for ReadFault {
    ghost from_gives = { λ _ e. e ≡ fault.NoMemory };

    fn from(_: AllocError) -> Self {
        ReadFault::NoMemory
    }
}

/// Reads to the end, but at most so many bytes: a read happens only while fewer were read. At a fault the
/// bytes read so far are lost.
pub fn read_all<S: Source>(alloc: Global, source: &mut S, most: usize) -> Result<Vec<u8>, ReadFault>
    ensures front { IfOk result (λ bytes. IfSome (S.left source.old) (λ held. bytes.items ≡ take most held)) }
    ensures rest { IfOk result (λ bytes. Consumes (S.left source.old) (S.left source.new) bytes.items) }
    ensures most { IfOk result (λ bytes. length bytes.items ≤ most) }
    ensures ended { IfOk result (λ bytes. length bytes.items < most → IsAtEnd (S.left source.new)) }
    ensures fault { OnErr result (TakesFewer (S.left source.old) (S.left source.new) most) }
    ensures cause { ReadCounts (S.count source.old) (S.count source.new) result }
{
    let mut bytes = Vec::new(alloc);
    let mut buffer = [0u8; 8192];
    'reading: while bytes.len() < most {
        let room = buffer.len().min(most - bytes.len());
        bytes.reserve(room)?;
        match source.read(&mut buffer[..room]) {
            Read::Got(count) => bytes.extend_from_slice(&buffer[..count])?,
            Read::End => return Ok(bytes),
            Read::Failed => return Err(ReadFault::Failed),
        }
    }
    Ok(bytes)
}

/// Why not all was written.
#[derive(Clone, Copy, Debug, PartialEq, Eq)]
pub enum WriteFault {
    /// A write failed.
    Failed,
    /// The sink had no memory for the bytes.
    NoMemory,
}

/// Writes all of the bytes, or at a fault the first of them.
pub fn write_all<K: Sink>(sink: &mut K, bytes: &[u8]) -> Result<(), WriteFault>
    ensures whole { OnOk result (Appends (K.written sink.old) (K.written sink.new) bytes.now) }
    ensures fault { OnErr result (WritesFront (K.written sink.old) (K.written sink.new) bytes.now) }
    ensures cause { WriteCounts (K.count sink.old) (K.count sink.new) result }
{
    let mut at = 0;
    'writing: while at < bytes.len() {
        match sink.write(&bytes[at..]) {
            Wrote::Took(count) => at += count,
            Wrote::Failed => return Err(WriteFault::Failed),
            Wrote::NoMemory => return Err(WriteFault::NoMemory),
        }
    }
    Ok(())
}
