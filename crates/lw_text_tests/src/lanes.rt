// The kernels beside plain counts, and beside what is known of texts from elsewhere.
ghost use Rattle.std.specs.Prelude.{◌≤◌, length};

use lw_base::LONGEST_TEXT;
use lw_lanes::{break_count, char_count, next_break, utf16_len};
use std::process::Abort;

/// Bytes of every class, its first and its last: ASCII with `\n` and `\r`, continuation bytes, and
/// leads of two, three and four bytes.
const CLASSES: [u8; 13] = [
    0x00, b'\n', 0x0B, b'\r', 0x7F, 0x80, 0xBF, 0xC0, 0xDF, 0xE0, 0xEF, 0xF0, 0xFF,
];

/// The plain counts of characters, UTF-16 units and breaks.
fn plain_counts(bytes: &[u8]) -> (u32, u32, u32) {
    let (mut characters, mut units, mut breaks) = (0u32, 0u32, 0u32);
    for byte in bytes {
        let (character, unit, line_break) = match *byte {
            b'\n' | b'\r' => (1, 1, 1),
            128..=191 => (0, 0, 0),
            240..=255 => (1, 2, 0),
            _ => (1, 1, 0),
        };
        characters = characters.wrapping_add(character);
        units = units.wrapping_add(unit);
        breaks = breaks.wrapping_add(line_break);
    }
    (characters, units, breaks)
}

fn plain_next_break(bytes: &[u8], from: usize) -> Option<usize> {
    for place in from..bytes.len() {
        if matches!(bytes[place], b'\n' | b'\r') {
            return Some(place);
        }
    }
    None
}

/// Four blocks and two bytes more.
const LONGEST: usize = 130;

/// The classes in turn, from the one of this number on.
fn in_turn(first: usize) -> [u8; LONGEST] {
    let mut bytes = [0; LONGEST];
    for (place, byte) in bytes.iter_mut().enumerate() {
        *byte = CLASSES[first.wrapping_add(place) % 13];
    }
    bytes
}

/// How many characters, UTF-16 units and breaks are counted.
fn counted(bytes: &[u8]) -> (u32, u32, u32)
    requires { length bytes.now ≤ LONGEST_TEXT }
{
    (char_count(bytes), utf16_len(bytes), break_count(bytes))
}

fn counts_agree(rt: &impl Abort, bytes: &[u8]) {
    assert!(rt; bytes.len() <= LONGEST);
    assert_eq!(rt; counted(bytes), plain_counts(bytes), "in {bytes:?}");
}

/// Of this length, a text of each class alone, and one of all classes from each of them on.
fn counts_of_length_agree(rt: &impl Abort, length: usize) {
    assert!(rt; length <= LONGEST);
    for (number, byte) in CLASSES.iter().enumerate() {
        let alone = [*byte; LONGEST];
        counts_agree(rt, &alone[..length]);
        let mixed = in_turn(number);
        counts_agree(rt, &mixed[..length]);
    }
}

#[test]
fn each_class_counts_at_every_place_of_every_length(rt: HostRuntime) {
    for length in 0..=LONGEST {
        counts_of_length_agree(&rt, length);
    }
}

fn next_agrees(rt: &impl Abort, bytes: &[u8], from: usize) {
    assert!(rt; from <= bytes.len());
    let next = plain_next_break(bytes, from);
    assert_eq!(rt; next_break(bytes, from), next, "in {bytes:?} from {from}");
}

/// The one break of a text is found at each place, from its start and from the break on; and none is found
/// before it or behind it.
fn one_break_is_found(rt: &impl Abort, line_break: u8) {
    for place in 0..LONGEST {
        let mut text = [b'a'; LONGEST];
        text[place] = line_break;
        next_agrees(rt, &text, 0);
        next_agrees(rt, &text, place);
        next_agrees(rt, &text, place + 1);
        next_agrees(rt, &text[..place], 0);
    }
}

#[test]
fn a_break_is_found_at_every_place(rt: HostRuntime) {
    one_break_is_found(&rt, b'\n');
    one_break_is_found(&rt, b'\r');
}

/// A text, and how many characters, UTF-16 units and breaks it has.
const TEXTS: [(&str, (u32, u32, u32)); 6] = [
    ("", (0, 0, 0)),
    ("model Demo\r\n\tend\n", (17, 17, 3)),
    ("süß, naïve café", (15, 15, 0)),
    ("日本語 ✓ e\u{301}", (8, 8, 0)),
    ("😀 𝒳𝒴 \u{10FFFF}\r", (7, 11, 1)),
    (
        "// 😀 in a line that is longer than one block of bytes, and 日本語 behind it\n",
        (73, 74, 1),
    ),
];

#[test]
fn texts_have_their_known_counts(rt: HostRuntime) {
    for (text, counts) in &TEXTS {
        let bytes = text.as_bytes();
        assert!(rt; bytes.len() <= LONGEST);
        assert_eq!(rt; counted(bytes), *counts, "in {text:?}");
    }
}

/// A place in the text "a\r\nb\rc\n", and where the next break stands.
const BREAKS: [(usize, Option<usize>); 6] = [
    (0, Some(1)),
    (1, Some(1)),
    (2, Some(2)),
    (3, Some(4)),
    (5, Some(6)),
    (7, None),
];

#[test]
fn breaks_are_found_one_after_the_other(rt: HostRuntime) {
    let text = "a\r\nb\rc\n".as_bytes();
    for (from, place) in BREAKS {
        assert!(rt; from <= text.len());
        assert_eq!(rt; next_break(text, from), place, "from {from}");
    }
}
