//! Counts over all bytes.
ghost use Rattle.std.specs.Prelude.{◌≡◌, ◌+◌, ◌*◌, ◌≤◌, ◌<◌, ℕ, if◌then◌else◌, length, sum_by, IsUtf8};
ghost use Rattle.std.specs.Str.{chars};
ghost use Rattle.std.proofs.Common.{arith};
ghost use Rattle.std.proofs.lemmas.Grind.{common_steps};
ghost use Rattle.lw_lanes.specs.Utf8.{begins_character, begins_pair, characters, utf16_units, in_utf16};
ghost use Rattle.lw_lanes.specs.LineBreak.{is_break, breaks};

use crate::block::{BLOCK, at_least, below, break_marks, is_break, raised};
use lw_base::LONGEST_TEXT;
use std::simd::prelude::*;

/// How many units a UTF-8 text takes in UTF-16: one for each character, and one more for each of four
/// bytes, from U+10000 on.
///
/// Of any bytes it is the number of those that are no continuation byte (128 to 191) plus the number
/// of those that are 240 or more. After The Unicode Standard, section 3.9.
pub fn utf16_len(bytes: &[u8]) -> u32
    requires { length bytes.now ≤ LONGEST_TEXT }
    ensures bytewise { result ≡ utf16_units bytes.now }
    ensures of_text { IsUtf8 bytes.now → result ≡ length (in_utf16 bytes.now) }
{
    total::<Utf16Unit>(bytes)
}

/// How many characters a UTF-8 text has.
///
/// Of any bytes it is the number of those that are no continuation byte (128 to 191).
/// After The Unicode Standard, section 3.9.
pub fn char_count(bytes: &[u8]) -> u32
    requires { length bytes.now ≤ LONGEST_TEXT }
    ensures bytewise { result ≡ characters bytes.now }
    ensures of_text { IsUtf8 bytes.now → result ≡ length (chars bytes.now) }
{
    total::<Character>(bytes)
}

/// How many bytes end a line: `\n` and `\r`, by the line ends of the Language Server Protocol 3.17.
/// A `\r\n` counts as two.
pub fn break_count(bytes: &[u8]) -> u32
    requires { length bytes.now ≤ LONGEST_TEXT }
    ensures { result ≡ breaks bytes.now }
{
    total::<Break>(bytes)
}

/// Something that bytes are counted for, at most two of it at one byte.
trait Counted {
    /// How many of it one byte brings.
    ghost at: { ℕ → ℕ };

    fn at_byte(byte: u8) -> u32
        ensures { result ≡ at byte };

    fn in_block(block: u8x32) -> u32
        ensures { result ≡ sum_by at block };

    ghost at_most_two: { (byte : ℕ) → at byte ≤ 2 };
}

struct Character;

impl Counted for Character {
    ghost at = { λ byte. if begins_character byte then 1 else 0 };

    ghost at_most_two = { λ byte. Prim.grind (arith, common_steps) };

    fn at_byte(byte: u8) -> u32 {
        u32::from(byte < 128 || byte >= 192)
    }

    fn in_block(block: u8x32) -> u32 {
        // Of the raised bytes, those that were 128 to 191 are the ones from 192 on.
        below(raised(block, 64), 192)
    }
}

struct Utf16Unit;

impl Counted for Utf16Unit {
    ghost at = { λ byte. (if begins_character byte then 1 else 0) + (if begins_pair byte then 1 else 0) };

    ghost at_most_two = { λ byte. Prim.grind (arith, common_steps) };

    fn at_byte(byte: u8) -> u32 {
        Character::at_byte(byte) + u32::from(byte >= 240)
    }

    fn in_block(block: u8x32) -> u32 {
        Character::in_block(block) + at_least(block, 240)
    }
}

struct Break;

impl Counted for Break {
    ghost at = { λ byte. if is_break byte then 1 else 0 };

    ghost at_most_two = { λ byte. Prim.grind (arith, common_steps) };

    fn at_byte(byte: u8) -> u32 {
        u32::from(is_break(byte))
    }

    fn in_block(block: u8x32) -> u32 {
        break_marks(block).count_ones()
    }
}

fn total<C: Counted>(bytes: &[u8]) -> u32
    requires { length bytes.now ≤ LONGEST_TEXT }
    ensures { result ≡ sum_by C.at bytes.now }
{
    let (blocks, rest) = bytes.as_chunks::<BLOCK>();
    in_blocks::<C>(blocks) + in_rest::<C>(rest)
}

fn in_blocks<C: Counted>(blocks: &[[u8; BLOCK]]) -> u32
    requires { length blocks.now * 32 ≤ LONGEST_TEXT }
    ensures { result ≡ sum_by (λ block. sum_by C.at block) blocks.now }
{
    let mut total = 0;
    for block in blocks {
        total += C::in_block(u8x32::from_array(*block));
    }
    total
}

fn in_rest<C: Counted>(rest: &[u8]) -> u32
    requires { length rest.now < 32 }
    ensures { result ≡ sum_by C.at rest.now }
{
    let mut total = 0;
    for byte in rest {
        total += C::at_byte(*byte);
    }
    total
}
