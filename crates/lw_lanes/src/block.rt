//! One byte, and one block of bytes in the lanes of a vector.
ghost use Rattle.std.specs.Prelude.{◌≡◌, ◌==◌, ◌+◌, ◌%◌, map, nat_lt, nat_le, count_by};
ghost use Rattle.std.specs.Simd.Lanes.{mask_l};
ghost use Rattle.lw_lanes.specs.LineBreak.{is_break};

use std::simd::prelude::*;

/// How many bytes a block has.
pub(crate) const BLOCK: usize = 32;

/// How many bytes of the block are below `limit`.
pub(crate) fn below(block: u8x32, limit: u8) -> u32
    ensures { result ≡ count_by (λ byte. nat_lt byte limit) block }
{
    block.simd_lt(u8x32::splat(limit)).to_bitmask().count_ones()
}

/// How many bytes of the block are `limit` or more.
pub(crate) fn at_least(block: u8x32, limit: u8) -> u32
    ensures { result ≡ count_by (λ byte. nat_le limit byte) block }
{
    block.simd_ge(u8x32::splat(limit)).to_bitmask().count_ones()
}

/// Each byte of the block raised by `step`, from 255 on to 0.
pub(crate) fn raised(block: u8x32, step: u8) -> u8x32
    ensures { result ≡ map (λ byte. (byte + step) % 256) block }
{
    block + u8x32::splat(step)
}

/// Whether the byte ends a line.
pub(crate) fn is_break(byte: u8) -> bool
    ensures { result ≡ is_break byte }
{
    byte == b'\n' || byte == b'\r'
}

/// The places of the block's breaks: bit k is set where byte k is one.
pub(crate) fn break_marks(block: u8x32) -> u64
    ensures { result ≡ mask_l (map is_break block) }
{
    marks_of(block, b'\n') | marks_of(block, b'\r')
}

fn marks_of(block: u8x32, byte: u8) -> u64
    ensures { result ≡ mask_l (map (λ other. other == byte) block) }
{
    block.simd_eq(u8x32::splat(byte)).to_bitmask()
}
