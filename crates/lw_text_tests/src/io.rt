// That the calls succeed where there is memory, which no clause says, and what the real outside answers.
use lw_base::Name;
use lw_io::{
    FileStore, Found, MakeFault, MemPatterns, MemSink, MemSource, MemStore, Patterns, Read,
    ReadFault, RealPatterns, Sink, Source, StdSink, StdSource, Store, WriteFault, Wrote, read_all,
    write_all,
};
use std::alloc::{AllocError, Global};
use std::test::Fail;

fn source(
    alloc: Global,
    bytes: &[u8],
    pieces: &[u32],
    failing: &[u64],
) -> Result<MemSource, AllocError> {
    Ok(MemSource::new(
        bytes.to_vec(alloc)?,
        pieces.to_vec(alloc)?,
        failing.to_vec(alloc)?,
    ))
}

#[test]
fn a_source_gives_pieces(rt: HostRuntime) -> Result<(), Fail> {
    let mut source = source(rt.alloc(), b"abcdefghij", &[2, 0, 5], &[3])?;
    let mut buffer = [0u8; 3];
    for (answer, left) in [
        (Read::Got(2), "cdefghij"),
        (Read::Got(1), "defghij"),
        (Read::Failed, "defghij"),
        (Read::Got(3), "ghij"),
        (Read::Got(2), "ij"),
        (Read::Got(2), ""),
        (Read::End, ""),
    ] {
        assert_eq!(rt; source.read(&mut buffer), answer, "before {left}");
        assert_eq!(rt; source.left(), left.as_bytes());
    }
    assert_eq!(rt; source.faults(), 1);
    Ok(())
}

/// How many bytes are read, of at most so many.
fn length_read<S: Source>(alloc: Global, source: &mut S, most: usize) -> Result<usize, ReadFault> {
    Ok(read_all(alloc, source, most)?.len())
}

#[test]
fn a_source_is_read_to_its_end_or_so_far(rt: HostRuntime) -> Result<(), Fail> {
    let alloc = rt.alloc();
    let mut source = source(alloc, &[b'x'; 20_000], &[1, 9_000], &[8])?;
    for (most, length, left) in [
        (10_000, Ok(10_000), 10_000),
        (usize::MAX, Ok(10_000), 0),
        (0, Ok(0), 0),
        (1, Err(ReadFault::Failed), 0),
    ] {
        assert_eq!(rt; length_read(alloc, &mut source, most), length);
        assert_eq!(rt; source.left().len(), left);
    }
    let mut reader = StdSource::new(b"of std".as_slice());
    assert_eq!(rt; length_read(alloc, &mut reader, 100), Ok(6));
    assert_eq!(rt; (source.faults(), reader.faults()), (1, 0));
    Ok(())
}

#[test]
fn a_sink_takes_all_but_at_its_faults(rt: HostRuntime) -> Result<(), Fail> {
    let mut sink = MemSink::new(rt.alloc(), vec![in rt.alloc(); 2u64]?);
    for (bytes, answer) in [
        ("ab", Ok(())),
        ("cd", Err(WriteFault::Failed)),
        ("ef", Ok(())),
    ] {
        assert_eq!(rt;
            write_all(&mut sink, bytes.as_bytes()),
            answer,
            "of {bytes}"
        );
    }
    assert_eq!(rt; sink.taken(), b"abef".as_slice());
    let mut room = [0u8; 3];
    let mut full = StdSink::new(&mut room[..]);
    for (bytes, answer) in [
        ("ab", Wrote::Took(2)),
        ("cd", Wrote::Took(1)),
        ("d", Wrote::Failed),
    ] {
        assert_eq!(rt; full.write(bytes.as_bytes()), answer, "of {bytes}");
    }
    assert_eq!(rt; (sink.faults(), full.faults()), (1, 1));
    Ok(())
}

/// Whether the store answers this text, or this word, for a path.
fn answers<S: Store>(
    alloc: Global,
    store: &mut S,
    path: &str,
    answer: &Result<&str, Found>,
) -> Result<bool, Fail> {
    let found = store.read(alloc, &Name::from_text(alloc, path)?);
    Ok(match (found, answer) {
        (Found::Text(text), Ok(expected)) => text.text() == *expected,
        (found, Err(expected)) => found == *expected,
        _ => false,
    })
}

/// A store with these files, whose second read fails.
fn store(alloc: Global, files: &[(&str, &[u8])]) -> Result<MemStore, Fail> {
    let mut held = Vec::new(alloc);
    for (path, bytes) in files {
        held.push((Name::from_text(alloc, path)?, bytes.to_vec(alloc)?))?;
    }
    Ok(MemStore::new(held, vec![in alloc; 2u64]?))
}

#[test]
fn a_store_has_the_last_file_of_a_path(rt: HostRuntime) -> Result<(), Fail> {
    let files: [(&str, &[u8]); 3] = [("a", b"first"), ("b", b"\xC3("), ("a", b"last \xC3\xA9")];
    let mut store = store(rt.alloc(), &files)?;
    for (path, answer) in [
        ("a", Ok("last é")),
        ("a", Err(Found::Failed)),
        ("b", Err(Found::NotUtf8)),
        ("", Err(Found::Absent)),
    ] {
        assert!(rt;
            answers(rt.alloc(), &mut store, path, &answer)?,
            "at {path}"
        );
    }
    assert_eq!(rt; store.faults(), 1);
    Ok(())
}

/// What a store answers for a file of so many bytes.
fn found_of(alloc: Global, size: usize) -> Result<Found, Fail> {
    let file = (Name::from_text(alloc, "")?, vec![in alloc; b' '; size]?);
    let mut store = MemStore::new(vec![in alloc; file]?, Vec::new(alloc));
    Ok(store.read(alloc, &Name::from_text(alloc, "")?))
}

#[test]
fn a_text_has_a_limit(rt: HostRuntime) -> Result<(), Fail> {
    let Found::Text(text) = found_of(rt.alloc(), 67_108_864)? else {
        return Err(Fail::from("not the longest text"));
    };
    assert_eq!(rt; text.bytes().len(), 67_108_864);
    assert!(rt; found_of(rt.alloc(), 67_108_865)? == Found::TooLong);
    Ok(())
}

#[test]
fn a_store_reads_the_files_of_the_system(rt: HostRuntime) -> Result<(), Fail> {
    let mut store = FileStore::new(&rt);
    for (path, answer, faults) in [
        ("/dev/null", Ok(""), 0),
        ("/no/such/file", Err(Found::Absent), 0),
        ("/", Err(Found::Failed), 1),
        ("/proc/self/exe", Err(Found::NotUtf8), 1),
        ("/dev/zero", Err(Found::TooLong), 1),
        ("/dev/null/below", Err(Found::Failed), 2),
    ] {
        assert!(rt;
            answers(rt.alloc(), &mut store, path, &answer)?,
            "at {path}"
        );
        assert_eq!(rt; store.faults(), faults, "after {path}");
    }
    Ok(())
}

/// Whether this text is refused, and is the one that is remembered.
fn refuses<P: Patterns>(alloc: Global, patterns: &mut P, text: &str) -> Result<bool, Fail> {
    match patterns.make(alloc, Name::from_text(alloc, text)?) {
        Ok(_) => Ok(false),
        Err(MakeFault::Refused) => Ok(patterns.refused().is_some_and(|last| last.text() == text)),
        Err(MakeFault::NoMemory) => Err(Fail::from("no memory")),
    }
}

#[test]
fn patterns_are_made_or_refused(rt: HostRuntime) -> Result<(), Fail> {
    let alloc = rt.alloc();
    let mut real = RealPatterns::new();
    let mut chosen = MemPatterns::new(vec![in alloc; Name::from_text(alloc, "x")?]?);
    for (text, by_regex, by_choice) in [
        ("b+", false, false),
        ("(", true, true),
        ("x", false, true),
        ("(?:[a-c]?){4294967295}", true, true),
        ("a)|(b", false, false),
    ] {
        assert_eq!(rt; refuses(alloc, &mut real, text)?, by_regex, "{text}");
        assert_eq!(rt; refuses(alloc, &mut chosen, text)?, by_choice, "{text}");
    }
    assert_eq!(rt; (real.faults(), chosen.faults()), (2, 3));
    Ok(())
}

#[test]
fn a_pattern_matches_at_the_start_alone(rt: HostRuntime) -> Result<(), Fail> {
    let alloc = rt.alloc();
    let Ok(pattern) = RealPatterns::new().make(alloc, Name::from_text(alloc, "b|bb+")?) else {
        return Err(Fail::from("refused"));
    };
    let mut matcher = pattern.matcher(alloc)?;
    for (text, end) in [("bbba", Some(1)), ("abbb", None), ("", None)] {
        assert_eq!(rt;
            matcher.find(text).map(|found| found.end()),
            end,
            "in {text}"
        );
    }
    Ok(())
}
