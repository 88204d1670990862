// The units in which the character of a position is counted.
ghost use Rattle.std.specs.Prelude.{◌≡◌, ◌+◌, ◌<◌, ◌≤◌, ◌^◌, ℕ, List, length, sum_by, take, encode_utf8_all};
ghost use Rattle.std.specs.Str.{IsCharBoundary, chars};
ghost use Rattle.lw_text.specs.Position.{AreCharsWithin, units_of};

use lw_base::LONGEST_TEXT;

/// The encoding in whose units the character of a position is counted (Language Server Protocol 3.17,
/// "PositionEncodingKind").
#[derive(Clone, Copy, Debug, PartialEq, Eq)]
pub enum Encoding {
    /// Units of UTF-16: a character from U+10000 on takes two, every other one.
    Utf16,
}

/// How many bytes are counted at once, where a place in a line is looked for.
const STRIDE: usize = 1024;

/// How many units the characters of the text take.
pub(crate) fn units_in(text: &str, enc: Encoding) -> u32
    requires { length text.now < 2 ^ 32 }
    ensures { result ≡ sum_by (units_of enc) (chars text.now) }
{
    match enc {
        Encoding::Utf16 => utf16_len(text),
    }
}

/// How many UTF-16 units the text takes. The lanes count no more than [`LONGEST_TEXT`] at once, so a longer
/// text is counted piece by piece.
fn utf16_len(text: &str) -> u32
    requires { length text.now < 2 ^ 32 }
    ensures { result ≡ sum_by (units_of Encoding.Utf16) (chars text.now) }
{
    let mut place = 0;
    let mut units = 0;
    'pieces: while place < text.len() {
        let next = text.floor_char_boundary(place + LONGEST_TEXT);
        units += utf16_len_of_piece(&text[place..next]);
        place = next;
    }
    units
}

/// How many UTF-16 units the text takes, counted at once.
fn utf16_len_of_piece(text: &str) -> u32
    requires { length text.now ≤ LONGEST_TEXT }
    ensures { result ≡ sum_by (units_of Encoding.Utf16) (chars text.now) }
{
    lw_lanes::utf16_len(text.as_bytes())
}

/// How many units the character takes.
fn units_at(c: char, enc: Encoding) -> u32
    ensures { result ≡ units_of enc c }
{
    match enc {
        Encoding::Utf16 => c.len_utf16() as u32,
    }
}

/// The place behind the whole characters among the first `units` units of the text.
pub(crate) fn place_behind(text: &str, units: u32, enc: Encoding) -> usize
    requires { length text.now < 2 ^ 32 }
    ensures { (cs : List ℕ) × AreCharsWithin (units_of enc) text.now units cs × (result ≡ length (encode_utf8_all cs)) }
{
    let (place, left) = pass_over(text, units, enc);
    place + place_among(&text[place..], left, enc)
}

/// A place in the text before which the characters take at most `units` units, and how many of these
/// are left there. The place that all of them reach is at most [`STRIDE`] bytes further on.
fn pass_over(text: &str, units: u32, enc: Encoding) -> (usize, u32)
    requires { length text.now < 2 ^ 32 }
    ensures boundary { IsCharBoundary text.now result.0 }
    ensures left { result.1 + sum_by (units_of enc) (chars (take result.0 text.now)) ≡ units }
{
    let mut place = 0;
    let mut left = units;
    'strides: loop {
        let next = text.floor_char_boundary(place + STRIDE);
        if next <= place {
            return (place, left);
        }
        let taken = units_in(&text[place..next], enc);
        if taken > left {
            return (place, left);
        }
        place = next;
        left -= taken;
    }
}

/// [`place_behind`], one character after the other.
fn place_among(text: &str, units: u32, enc: Encoding) -> usize
    requires { length text.now < 2 ^ 32 }
    ensures { (cs : List ℕ) × AreCharsWithin (units_of enc) text.now units cs × (result ≡ length (encode_utf8_all cs)) }
{
    let mut place = 0;
    let mut left = units;
    for c in text.chars() {
        let size = units_at(c, enc);
        if size > left {
            break;
        }
        left -= size;
        place += c.len_utf8();
    }
    place
}
