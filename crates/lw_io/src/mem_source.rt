// A source in memory.
ghost use Rattle.std.specs.Prelude.{◌≡◌, ◌≤◌, ◌++◌, length, take, drop};
ghost use Rattle.lw_io.specs.Pieces as spec;

use crate::calls::Calls;
use crate::{Read, Source};

/// A source in memory, which gives its bytes in pieces and fails at chosen calls.
#[derive(Drop)]
pub struct MemSource {
    bytes: Vec<u8>,
    at: usize,
    pieces: Vec<u32>,
    piece: usize,
    calls: Calls,
    ghost inside: { at ≤ length bytes.items },
    ghost piece_inside: { piece ≤ length pieces.items },
}

impl MemSource {
    ghost use Rattle.std.specs.Prelude.{◌≡◌};
    ghost use Rattle.lw_io.specs.MemSource.{source_left, source_pieces, source_failing, source_calls, source_faults};

    /// A source of these bytes. It gives them in pieces of these sizes, of which 0 counts as 1, and then
    /// whole; a piece longer than the buffer is given in parts. The calls of the numbers in `failing`,
    /// counted from 1, fail.
    pub fn new(bytes: Vec<u8>, pieces: Vec<u32>, failing: Vec<u64>) -> MemSource
        ensures left { source_left result ≡ bytes.items }
        ensures pieces { source_pieces result ≡ pieces.items }
        ensures failing { source_failing result ≡ failing.items }
        ensures calls { source_calls result ≡ 0 }
        ensures faults { source_faults result ≡ 0 }
    {
        MemSource {
            bytes,
            at: 0,
            pieces,
            piece: 0,
            calls: Calls::new(failing),
        }
    }

    /// The bytes left.
    pub fn left(&self) -> &[u8]
        ensures { result.now ≡ source_left self.now }
    {
        &self.bytes[self.at..]
    }
}

impl Source for MemSource {
    ghost use Rattle.std.specs.Prelude.{◌≡◌, ◌<◌, ◌↔◌, Some, length, Contains};
    ghost use Rattle.lw_io.specs.Causes.{next_number};
    ghost use Rattle.lw_io.specs.MemSource.{source_left, source_failing, source_calls, source_faults, GivesPiece};
    ghost use Rattle.lw_io.specs.Source.{GivesBytes, CountsRead};

    ghost left = { λ s. Some (source_left s) };

    ghost count = { source_faults };

    fn faults(&self) -> u64 {
        self.calls.faults()
    }

    fn read(&mut self, buf: &mut [u8]) -> Read
        requires { 0 < length buf.old }
        ensures bytes { GivesBytes (Some (source_left self.old)) (Some (source_left self.new)) buf.new result }
        ensures cause { CountsRead (source_faults self.old) (source_faults self.new) result }
        ensures piece { GivesPiece self.old self.new (length buf.old) result }
        ensures number { source_calls self.new ≡ next_number (source_calls self.old) }
        ensures fails { (result ≡ Read.Failed) ↔ Contains (source_failing self.new) (source_calls self.new) }
        ensures failing { source_failing self.new ≡ source_failing self.old }
    {
        if self.calls.next_fails() {
            return Read::Failed;
        }
        let left = &self.bytes[self.at..];
        if left.is_empty() {
            return Read::End;
        }
        let count = piece_size(&self.pieces[self.piece..], left.len()).min(buf.len());
        give(buf, left, count);
        self.at += count;
        self.piece = piece_after(&mut self.pieces, self.piece, count);
        Read::Got(count)
    }
}

// How many of the bytes left the next piece has.
fn piece_size(pieces: &[u32], left: usize) -> usize
    ensures { result ≡ spec.piece_size pieces.now left }
{
    match pieces.first() {
        Some(size) => left.min((*size).max(1) as usize),
        None => left,
    }
}

// Gives so many bytes of the piece, and returns the place of the next one.
fn piece_after(pieces: &mut [u32], piece: usize, count: usize) -> usize
    requires { piece ≤ length pieces.old }
    ensures pieces { drop result pieces.new ≡ spec.pieces_after (drop piece pieces.old) count }
    ensures inside { result ≤ length pieces.new }
{
    if piece == pieces.len() {
        return piece;
    }
    let size = pieces[piece].max(1);
    if count < size as usize {
        pieces[piece] = size - count as u32;
        piece
    } else {
        piece + 1
    }
}

// Copies the first bytes that are left.
fn give(buf: &mut [u8], left: &[u8], count: usize)
    requires room { count ≤ length buf.old }
    requires there { count ≤ length left.now }
    ensures { left.now ≡ take count buf.new ++ drop count left.now }
{
    buf[..count].copy_from_slice(&left[..count]);
}
