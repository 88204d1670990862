//! Where the next line break stands.
ghost use Rattle.std.specs.Prelude.{◌≡◌, ◌+◌, ◌≤◌, ◌<◌, ℕ, length, position, IfSome, IfNone};
ghost use Rattle.std.specs.List.{position_or_len};
ghost use Rattle.lw_lanes.specs.LineBreak.{is_break, next_break, IsLeastBreak, NoBreakBetween};

use crate::block::{BLOCK, break_marks, is_break};
use std::simd::prelude::*;

/// The least place from `from` on where a byte ends a line: `\n` or `\r`, by the line ends of the
/// Language Server Protocol 3.17. None exactly where no such byte follows.
pub fn next_break(bytes: &[u8], from: usize) -> Option<usize>
    requires { from ≤ length bytes.now }
    ensures value { result ≡ next_break bytes.now from }
    ensures least { IfSome result (IsLeastBreak bytes.now from) }
    ensures none { IfNone result (NoBreakBetween bytes.now from (length bytes.now)) }
{
    let mut at = from;
    'whole: while bytes.len() - at >= BLOCK {
        let clear = first_break_in(u8x32::from_slice(&bytes[at..]));
        if clear < BLOCK {
            return Some(at + clear);
        }
        at += BLOCK;
    }
    first_break(&bytes[at..]).map(|n| at + n)
}

/// The lane of the block's first break, or the number of lanes where it has none.
fn first_break_in(block: u8x32) -> usize
    ensures { result ≡ position_or_len is_break block }
{
    let marks = break_marks(block);
    if marks == 0 {
        BLOCK
    } else {
        marks.trailing_zeros() as usize
    }
}

/// The place of the first break, byte by byte.
fn first_break(bytes: &[u8]) -> Option<usize>
    ensures { result ≡ position is_break bytes.now }
{
    bytes.iter().position(|byte| is_break(*byte))
}
