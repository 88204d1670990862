// What the clauses do not say: that the calls succeed where there is memory, and what the base
// protocol's texts give.
ghost use Rattle.std.specs.Prelude.{◌<◌};

use lw_base::{Items, Name, NoMemory};
use lw_frame::FrameFault::{BadHeader, NoLength, TooLong, Truncated};
use lw_frame::{Body, FrameFault, FrameReader, Frames, frame, header_part, read_pieces};
use std::alloc::Global;
use std::test::Fail;

/// More bytes than any stream of these tests has.
const LONGEST: usize = 1 << 30;

/// Hands out all bodies that are there, and answers the fault behind them.
fn drain(
    reader: &mut FrameReader,
    bodies: &mut Items<Body>,
) -> Result<Option<FrameFault>, NoMemory> {
    for _ in 0..LONGEST {
        match reader.next() {
            Ok(Some(body)) => bodies.push(body)?,
            Ok(None) => return Ok(None),
            Err(fault) => return Ok(Some(fault)),
        }
    }
    Ok(None)
}

/// What a stream gives that comes in pieces of `size` bytes. Pieces of 0 bytes stand for pieces of as many as the reader
/// wants.
fn read(alloc: Global, stream: &[u8], size: usize, closed: bool) -> Result<Frames, NoMemory> {
    let mut reader = FrameReader::new(alloc);
    let mut bodies = Items::new(alloc);
    let mut fed: usize = 0;
    'pieces: while fed < stream.len() && fed < LONGEST {
        let most = if size == 0 { reader.wanted() } else { size };
        let end = fed + most.min(stream.len() - fed).min(LONGEST);
        reader.feed(&stream[fed..end])?;
        fed = end;
    }
    if closed {
        reader.close();
    }
    let first = drain(&mut reader, &mut bodies)?;
    let fault = drain(&mut reader, &mut bodies)?;
    if first != fault {
        return Err(NoMemory);
    }
    Ok(Frames { bodies, fault })
}

/// Whether the stream, then closed, gives so many bodies and this fault, however it is cut.
fn gives(
    alloc: Global,
    stream: &[u8],
    bodies: usize,
    fault: Option<FrameFault>,
) -> Result<bool, NoMemory> {
    for size in [0usize, 1, 5, 4_096, 100_000] {
        let found = read(alloc, stream, size, true)?;
        if found.bodies.len() != bodies || found.fault != fault {
            return Ok(false);
        }
    }
    Ok(true)
}

/// Streams that are faulty, how many bodies stand before the fault, and the fault.
const FAULTY: [(&str, usize, FrameFault); 19] = [
    // What the line, the length and the end of the stream are.
    ("Content-Length: 5\r\nX\r\n\r\n", 0, BadHeader(19)),
    ("Content-Type: x\r\n\r\n", 0, NoLength(0)),
    ("Content-Length: 16777217\r\n\r\n", 0, TooLong(16_777_217)),
    ("Content-Length: 3\r\n\r\n{}", 0, Truncated(1)),
    ("Content-Length: 3\r\n\r\n", 0, Truncated(3)),
    ("Content-Length: 3\r\n\r", 0, Truncated(0)),
    ("\r\n", 0, NoLength(0)),
    // Lengths of ten and eleven digits, of none, with a sign, with a blank inside.
    (
        "Content-Length: 9999999999\r\n\r\n",
        0,
        TooLong(9_999_999_999),
    ),
    ("Content-Length: 00000000000\r\n\r\n", 0, BadHeader(0)),
    ("Content-Length:\r\n\r\n", 0, BadHeader(0)),
    ("Content-Length: \t \r\n\r\n", 0, BadHeader(0)),
    ("Content-Length: -1\r\n\r\n", 0, BadHeader(0)),
    ("Content-Length: +1\r\n\r\n", 0, BadHeader(0)),
    ("Content-Length: 1 2\r\n\r\n", 0, BadHeader(0)),
    // A second length, an empty name behind a whole message, a blank in the name, bare newlines.
    (
        "Content-Length: 1\r\nA:\r\nCONTENT-LENGTH: 1\r\n\r\n",
        0,
        BadHeader(23),
    ),
    (
        "Content-Length: 0\r\n\r\nA: b\r\n: c\r\n\r\n",
        1,
        BadHeader(27),
    ),
    ("Content-Length : 1\r\n\r\n", 0, NoLength(0)),
    ("Content-Length: 1\n\r\n\r\n", 0, BadHeader(0)),
    ("Content-Length: 1\r\n\n\r\n", 0, BadHeader(19)),
];

#[test]
fn faults_have_their_places(rt: HostRuntime) -> Result<(), Fail> {
    for (stream, bodies, fault) in FAULTY {
        let is_so = gives(rt.alloc(), stream.as_bytes(), bodies, Some(fault))?;
        assert!(rt; is_so, "{stream:?}");
    }
    Ok(())
}

fn are(bodies: &[Body], expected: &[&str]) -> bool {
    bodies.len() == expected.len()
        && bodies
            .iter()
            .zip(expected)
            .all(|(body, text)| body.bytes() == text.as_bytes())
}

#[test]
fn bodies_come_in_order(rt: HostRuntime) -> Result<(), Fail> {
    let streams: [(&str, &[&str]); 5] = [
        ("", &[]),
        ("Content-Length: 2\r\n\r\n{}", &["{}"]),
        (
            "content-length:2\r\n\r\n{}CONTENT-LENGTH:\t 00 \t\r\n\r\n",
            &["{}", ""],
        ),
        (
            "cOnTeNt-LeNgTh: 0000000003\r\nA\r:\n\r\n\r\n\r\n\n",
            &["\r\n\n"],
        ),
        (
            "A: b\r\nContent-Length: 1\r\nC:\r\n\r\nxContent-Length: 0\r\n\r\n",
            &["x", ""],
        ),
    ];
    for (stream, expected) in streams {
        let found = read(rt.alloc(), stream.as_bytes(), 3, true)?;
        assert!(rt; are(found.bodies.as_slice(), expected), "{stream:?}");
        let is_so = gives(rt.alloc(), stream.as_bytes(), expected.len(), None)?;
        assert!(rt; is_so, "{stream:?}");
    }
    Ok(())
}

/// Text with `count` bytes `x` in its middle.
fn filled(alloc: Global, before: &str, count: usize, after: &str) -> Result<Vec<u8>, NoMemory> {
    let mut text = before.as_bytes().to_vec(alloc)?;
    text.resize(before.len().saturating_add(count), b'x')?;
    text.extend_from_slice(after.as_bytes())?;
    Ok(text)
}

#[test]
fn header_parts_have_a_limit(rt: HostRuntime) -> Result<(), Fail> {
    let length = "\r\nContent-Length: 1\r\n\r\nz";
    let zero = "Content-Length: 0\r\n\r\n";
    let streams: [(&str, usize, &str, usize, Option<FrameFault>); 8] = [
        // A header part of 4,096 bytes, and of one byte more.
        ("A:", 4_071, length, 1, None),
        ("A:", 4_072, length, 0, Some(BadHeader(0))),
        // One that does not end within 4,096 bytes, and one that is cut off before them.
        ("", 4_096, "", 0, Some(BadHeader(0))),
        ("", 4_095, "", 0, Some(Truncated(0))),
        // A line that ends with byte 4,096, without a colon and with one.
        ("A:\r\n", 4_090, "\r\n", 0, Some(BadHeader(4))),
        ("A:\r\nB:", 4_088, "\r\n", 0, Some(BadHeader(0))),
        // The limit counts in each header part anew.
        ("Content-Length: 5000\r\n\r\n", 5_000, zero, 2, None),
        (
            "Content-Length: 5000\r\n\r\n",
            9_095,
            "",
            1,
            Some(Truncated(0)),
        ),
    ];
    for (before, count, after, bodies, fault) in streams {
        let stream = filled(rt.alloc(), before, count, after)?;
        let is_so = gives(rt.alloc(), stream.as_slice(), bodies, fault)?;
        assert!(rt; is_so, "{before:?}, {count} and {after:?}");
    }
    Ok(())
}

#[test]
fn the_longest_body(rt: HostRuntime) -> Result<(), Fail> {
    let text = "Content-Length: 16777216\r\n\r\n";
    let stream = filled(rt.alloc(), text, 16_777_216, "Content")?;
    for size in [64usize, 1 << 24] {
        let found = read(rt.alloc(), stream.as_slice(), size, false)?;
        let is_so = matches!(found.bodies.as_slice(), [body] if body.bytes().len() == 16_777_216);
        assert!(rt; is_so && found.fault.is_none(), "by {size}");
    }
    Ok(())
}

/// Streams, and how many bytes are wanted behind them.
const WANTED: [(&str, usize); 13] = [
    ("", 20),
    ("C", 19),
    ("Content-Length: 5", 4),
    ("Content-Length: 54321\r", 3),
    ("Content-Length: 54321\r\n", 2),
    ("Content-Length: 54321\r\n\r", 1),
    ("Content-Length: 5\r\n\r\n", 5),
    ("Content-Length: 5\r\n\r\nabc", 2),
    ("Content-Length:0\r\n\r\nContent-Length:0\r\n\r\n", 20),
    ("Content-Length: 2\r\n\r\n{}Content-Length: 2\r\n\r\n{}", 20),
    ("A:\r\nContent-Length: 3\r\nB:\r\n\r\n\r\n\nA: \r\n", 15),
    ("Content-Length: 1\r\n\r\n\r\r\n\r\n", 1),
    ("X\r\n", 1),
];

#[test]
fn a_message_is_not_read_past_its_end(rt: HostRuntime) -> Result<(), Fail> {
    for (stream, wanted) in WANTED {
        let mut reader = FrameReader::new(rt.alloc());
        reader.feed(stream.as_bytes())?;
        assert_eq!(rt; reader.wanted(), wanted, "{stream:?}");
    }
    Ok(())
}

#[test]
fn frames_are_written_and_read(rt: HostRuntime) -> Result<(), Fail> {
    let alloc = rt.alloc();
    let body = Name::from_text(alloc, "{\"ä\":1}")?;
    assert_eq!(rt; header_part(alloc, 8)?.text(), "Content-Length: 8\r\n\r\n");
    assert_eq!(rt;
        frame(alloc, &body)?.text(),
        "Content-Length: 8\r\n\r\n{\"ä\":1}"
    );
    let pieces = [
        b"Content-Length: 8\r\n\r".to_vec(alloc)?,
        b"\n{\"\xC3".to_vec(alloc)?,
        b"\xA4\":1}".to_vec(alloc)?,
    ];
    let found = read_pieces(alloc, &pieces)?;
    assert!(rt; are(found.bodies.as_slice(), &["{\"ä\":1}"]) && found.fault.is_none());
    Ok(())
}
