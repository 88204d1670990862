// Lines and characters.
ghost use Rattle.std.specs.Prelude.{◌≡◌, ◌<◌, ◌≤◌, ◌^◌, ℕ, length};
ghost use Rattle.std.specs.Str.{IsCharBoundary};
ghost use Rattle.lw_text.specs.Offset.{IsOffset};
ghost use Rattle.lw_text.specs.Starts.{AreStarts};
ghost use Rattle.lw_text.specs.Position.{IsLineOf, IsPosition, IsPositionIn};
ghost use Rattle.lw_text.specs.declared.place.Pos.{Pos};

use crate::line::{LineStart, line_at, line_end};
use crate::units::{Encoding, place_behind, units_in};

/// A position in a text: its line, and the character in that line in units of the encoding that is
/// agreed on, both counted from zero (Language Server Protocol 3.17, "Position").
#[derive(Clone, Copy, Debug, PartialEq, Eq, PartialOrd, Ord, Hash)]
pub struct Pos {
    pub line: u32,
    pub character: u32,
}

/// The position of the byte `offset` of the text, in UTF-16. Inside a character it is where the
/// character begins, and inside `\r\n` where the line ends.
///
/// For a caller that asks once: the work is linear in the bytes up to the end of the place's line,
/// whatever follows it. A [`crate::TextDoc`] knows where its lines begin. No memory is taken.
pub fn position(text: &str, offset: usize) -> Pos
    requires within { offset ≤ length text.now }
    requires small { length text.now < 2 ^ 32 }
    ensures position { IsPosition text.now offset result }
    ensures only { (other : Pos) → IsPosition text.now offset other → other ≡ result }
{
    position_in(text, offset, line_at(text, offset), Encoding::Utf16)
}

/// The position of the byte `offset` of the text, which is in this line.
pub(crate) fn position_in(text: &str, offset: usize, line: LineStart, enc: Encoding) -> Pos
    requires within { offset ≤ length text.now }
    requires small { length text.now < 2 ^ 32 }
    requires line { IsLineOf text.now offset line.number line.start }
    ensures { IsPositionIn enc text.now offset result }
{
    let piece = &text[line.start..text.floor_char_boundary(offset)];
    // Behind the `\r` of `\r\n` what stands in the line is over.
    let content = piece.strip_suffix('\r').unwrap_or(piece);
    Pos {
        line: line.number,
        character: units_in(content, enc),
    }
}

/// The byte that the position means, in a text whose lines begin at these places.
pub(crate) fn offset_in(text: &str, starts: &[u32], at: Pos, enc: Encoding) -> usize
    requires starts { AreStarts text.now starts.now }
    requires small { length text.now < 2 ^ 32 }
    ensures offset { IsOffset enc text.now at result }
    ensures within { result ≤ length text.now }
    ensures boundary { IsCharBoundary text.now result }
{
    let Some(start) = starts.get(at.line as usize) else {
        return text.len();
    };
    let start = *start as usize;
    let content = &text[start..line_end(text, start)];
    start + place_behind(content, at.character, enc)
}
