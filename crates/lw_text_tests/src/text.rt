// Places, positions and changes, by hand.
ghost use Rattle.std.specs.Prelude.{◌≡◌};

use lw_base::{Items, LONGEST_TEXT, Name, NoMemory};
use lw_text::{Change, EditFault, Encoding, Pos, TextDoc, position};
use std::alloc::Global;
use std::test::Fail;

const ENC: Encoding = Encoding::Utf16;

fn doc(alloc: Global, text: &str) -> Result<TextDoc, EditFault> {
    TextDoc::new(alloc, Name::from_text(alloc, text)?)
}

/// A text, a byte in it, and the line and the character of its position.
const PLACES: [(&str, u32, u32, u32); 30] = [
    ("", 0, 0, 0),
    ("model state", 6, 0, 6),
    // A character of four bytes takes two units, and the places inside it are where it begins.
    ("a😀b", 0, 0, 0),
    ("a😀b", 1, 0, 1),
    ("a😀b", 2, 0, 1),
    ("a😀b", 4, 0, 1),
    ("a😀b", 5, 0, 3),
    ("a😀b", 6, 0, 4),
    ("é😀\nü€x", 3, 0, 1),
    ("é😀\nü€x", 6, 0, 3),
    ("é😀\nü€x", 7, 1, 0),
    ("é😀\nü€x", 8, 1, 0),
    ("é😀\nü€x", 11, 1, 1),
    ("é😀\nü€x", 12, 1, 2),
    ("é😀\nü€x", 13, 1, 3),
    // `\n`, `\r` and `\r\n` end a line, `\n\r` ends two.
    ("a\nb\rc\r\nd", 1, 0, 1),
    ("a\nb\rc\r\nd", 2, 1, 0),
    ("a\nb\rc\r\nd", 3, 1, 1),
    ("a\nb\rc\r\nd", 4, 2, 0),
    ("a\nb\rc\r\nd", 5, 2, 1),
    ("a\nb\rc\r\nd", 6, 2, 1),
    ("a\nb\rc\r\nd", 7, 3, 0),
    ("a\nb\rc\r\nd", 8, 3, 1),
    ("\n\r\r\n", 1, 1, 0),
    ("\n\r\r\n", 2, 2, 0),
    ("\n\r\r\n", 3, 2, 0),
    ("\n\r\r\n", 4, 3, 0),
    ("last\r", 4, 0, 4),
    ("last\r", 5, 1, 0),
    ("last\n", 5, 1, 0),
];

#[test]
fn places_have_positions(rt: HostRuntime) -> Result<(), Fail> {
    for (text, offset, line, character) in PLACES {
        assert!(rt; offset as usize <= text.len());
        assert!(rt; text.len() < 100);
        let at = Pos { line, character };
        assert_eq!(rt; position(text, offset as usize), at, "{text:?} at {offset}");
        let doc = doc(rt.alloc(), text)?;
        assert!(rt; offset <= doc.len());
        assert_eq!(rt; doc.position(offset, ENC), at, "{text:?} at {offset}");
    }
    Ok(())
}

/// A text, a line and a character, and the byte that they mean.
const POSITIONS: [(&str, u32, u32, u32); 23] = [
    ("a😀b", 0, 0, 0),
    ("a😀b", 0, 1, 1),
    ("a😀b", 0, 2, 1),
    ("a😀b", 0, 3, 5),
    ("a😀b", 0, 4, 6),
    ("a😀b", 0, 99, 6),
    ("a😀b", 1, 0, 6),
    ("", 0, 0, 0),
    ("", 0, 7, 0),
    ("", 7, 0, 0),
    // A character past the line's end is the line's end, before what ends the line.
    ("ab\r\ncd", 0, 2, 2),
    ("ab\r\ncd", 0, 3, 2),
    ("ab\r\ncd", 0, 4, 2),
    ("ab\r\ncd", 1, 0, 4),
    ("ab\r\ncd", 1, 9, 6),
    ("ab\r\ncd", 2, 0, 6),
    ("a\rb", 0, 9, 1),
    ("a\rb", 1, 0, 2),
    ("é\n😀", 1, 1, 3),
    ("é\n😀", 1, 2, 7),
    ("last\n", 1, 0, 5),
    ("last\n", 1, 1, 5),
    ("last\n", 2, 0, 5),
];

#[test]
fn positions_mean_places(rt: HostRuntime) -> Result<(), Fail> {
    for (text, line, character, offset) in POSITIONS {
        let doc = doc(rt.alloc(), text)?;
        let at = Pos { line, character };
        assert_eq!(rt; doc.offset(at, ENC), offset, "{text:?} at {at:?}");
    }
    Ok(())
}

#[test]
fn long_lines_are_counted(rt: HostRuntime) -> Result<(), Fail> {
    let mut text = String::new(rt.alloc());
    for _ in 0..1000u32 {
        text.push_str("a€😀")?;
    }
    let doc = doc(rt.alloc(), text.as_str())?;
    for (character, offset) in [
        (0u32, 0u32),
        (511, 1020),
        (512, 1024),
        (514, 1028),
        (515, 1028),
        (1999, 3996),
        (3999, 7996),
        (4000, 8000),
        (4001, 8000),
    ] {
        let at = Pos { line: 0, character };
        assert_eq!(rt; doc.offset(at, ENC), offset, "at {character}");
    }
    Ok(())
}

/// A change as a test writes it: line and character of the start and of the end, and the text.
type Edit = (Option<(u32, u32, u32, u32)>, &'static str);

fn changes(alloc: Global, edits: &[Edit]) -> Result<Items<Change>, NoMemory> {
    let mut changes = Items::new(alloc);
    for (range, text) in edits {
        let text = Name::from_text(alloc, text)?;
        let range = range.map(|(line, character, last, end)| {
            let start = Pos { line, character };
            (
                start,
                Pos {
                    line: last,
                    character: end,
                },
            )
        });
        changes.push(Change { range, text })?;
    }
    Ok(changes)
}

const LAST: Edit = (Some((0, 3, 0, 99)), "c\r\nd");

const JOINED: Edit = (Some((0, 4, 1, 0)), "");

/// A text, the edits, the text that they leave, and the number of the one whose range is bad.
const EDITS: [(&str, &[Edit], &str, Option<u64>); 11] = [
    ("a😀b", &[], "a😀b", None),
    ("a😀b", &[LAST], "a😀c\r\nd", None),
    ("a😀c\r\nd", &[JOINED], "a😀cd", None),
    ("a😀b", &[LAST, JOINED], "a😀cd", None),
    ("a😀b", &[(Some((0, 2, 0, 1)), "x")], "a😀b", Some(0)),
    (
        "a😀b",
        &[LAST, (Some((1, 0, 0, 5)), "x"), JOINED],
        "a😀b",
        Some(1),
    ),
    // The whole text, the very end, past the last line, and inside a character.
    (
        "a😀b",
        &[(None, "\n"), (Some((1, 0, 1, 0)), "é")],
        "\né",
        None,
    ),
    ("ab", &[(Some((0, 2, 0, 2)), "c")], "abc", None),
    ("ab", &[(Some((9, 0, 9, 9)), "c")], "abc", None),
    ("a😀b", &[(Some((0, 2, 0, 3)), "")], "ab", None),
    ("", &[(Some((0, 0, 0, 0)), "\r")], "\r", None),
];

/// The document after the edits, and the number of the one whose range is bad.
fn edited(alloc: Global, text: &str, edits: &[Edit]) -> Result<(TextDoc, Option<u64>), EditFault> {
    let mut doc = doc(alloc, text)?;
    let changes = changes(alloc, edits)?;
    match doc.apply(alloc, changes.as_slice(), ENC) {
        Ok(()) => Ok((doc, None)),
        Err(EditFault::BadRange(number)) => Ok((doc, Some(number))),
        Err(fault) => Err(fault),
    }
}

#[test]
fn changes_are_made_in_order(rt: HostRuntime) -> Result<(), Fail> {
    for (text, edits, left, bad) in EDITS {
        let (doc, refused) = edited(rt.alloc(), text, edits)?;
        assert_eq!(rt; doc.as_text(), left, "{text:?}");
        assert_eq!(rt; refused, bad, "{text:?}");
    }
    Ok(())
}

/// The document that the edits make of another.
fn edited_anew(alloc: Global, text: &str, edits: &[Edit]) -> Result<TextDoc, EditFault> {
    let doc = doc(alloc, text)?;
    let changes = changes(alloc, edits)?;
    doc.edited(alloc, changes.as_slice(), ENC)
}

#[test]
fn changes_make_a_new_text(rt: HostRuntime) -> Result<(), Fail> {
    for (text, edits, left, bad) in EDITS {
        if bad.is_none() {
            let doc = edited_anew(rt.alloc(), text, edits)?;
            assert_eq!(rt; doc.as_text(), left, "{text:?}");
        }
    }
    let refused = edited_anew(rt.alloc(), "ab", &[(Some((0, 2, 0, 1)), "x")]);
    assert!(rt; refused.is_err_and(|fault| fault == EditFault::BadRange(0)));
    Ok(())
}

#[test]
fn a_text_has_a_longest_length(rt: HostRuntime) -> Result<(), Fail> {
    let alloc = rt.alloc();
    let most = LONGEST_TEXT as u64;
    let mut text = String::from_str(alloc, "a")?;
    for _ in 0..26u32 {
        let half = text.clone()?;
        text.push_str(half.as_str())?;
    }
    let mut doc = doc(alloc, text.as_str())?;
    assert_eq!(rt; doc.len() as usize, LONGEST_TEXT);
    text.push_str("b")?;
    let over = TextDoc::new(alloc, Name::from_text(alloc, text.as_str())?);
    assert!(rt; over.is_err_and(|fault| fault == EditFault::TooLong(most + 1)));
    // The first of these changes keeps the length.
    let edits = [(Some((0, 0, 0, 1)), "c"), (Some((7, 0, 7, 0)), "b")];
    let answer = doc.apply(alloc, changes(alloc, &edits)?.as_slice(), ENC);
    assert_eq!(rt; answer, Err(EditFault::TooLong(most + 1)));
    assert!(rt; doc.as_text().starts_with("a"));
    Ok(())
}
