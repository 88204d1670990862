// The lengths of matches at the places of texts, by hand.
use lw_base::{LONGEST_TEXT, Name, NoMemory};
use lw_matching::lengths::{KnownLengths, match_lengths};
use lw_matching::{first_bytes_of, nfa_of};
use std::alloc::Global;
use std::test::Fail;

const COMMENT: &str = r"/\*[\s\S]*?\*/";

const STRING: &str = "\"(\\\\.|[^\"\\\\])*\"";

// How many bytes the pattern matches at each place of the text: `-` where it does not match, and nothing where it asks for more than that.
fn lengths_text(alloc: Global, pattern: &str, text: &str) -> Result<String, NoMemory> {
    let mut shown = String::new(alloc);
    if LONGEST_TEXT < text.len() {
        return Ok(shown);
    }
    let pattern = Name::from_text(alloc, pattern)?;
    let Some(nfa) = nfa_of(alloc, &pattern)? else {
        return Ok(shown);
    };
    let Some(lengths) = match_lengths(alloc, &nfa, text)? else {
        return Ok(shown);
    };
    for length in &lengths {
        match length {
            None => shown.push_str("- ")?,
            Some(bytes) => shown.push_str(format!(in alloc; "{bytes} ")?.as_str())?,
        }
    }
    Ok(shown)
}

#[test]
fn lengths_are_those_of_the_matches(rt: HostRuntime) -> Result<(), Fail> {
    let alloc = rt.alloc();
    for (pattern, text, answer) in [
        ("a*b", "aaab aa", "4 3 2 1 - - - - "),
        ("a*b|a", "aab aa", "3 2 1 - 1 1 - "),
        ("a*", "aab", "2 1 0 0 "),
        ("a|ab", "ab", "1 - - "),
        ("ab|a", "ab", "2 - - "),
        ("^a", "aa", "1 1 - "),
        ("(?:b|^a)+", "aba", "2 1 1 - "),
        ("[a-c]{2}?", "abca", "2 2 2 - - "),
        (COMMENT, "/**//*", "4 - - - - - - "),
        (STRING, "\"\\\"a\" \"", "5 - 3 - 3 - - - "),
        ("\u{e9}+", "a\u{e9}\u{e9}", "- 4 - 2 - - "),
        (r"a\b", "a", ""),
        ("a$", "a", ""),
        ("(", "a", ""),
    ] {
        assert_eq!(rt; lengths_text(alloc, pattern, text)?.as_str(), answer);
    }
    Ok(())
}

// What is known at the start of a text once so many searches there have found nothing.
fn known_after(
    alloc: Global,
    searches: u32,
    text: &str,
) -> Result<Option<Option<usize>>, NoMemory> {
    if LONGEST_TEXT < text.len() {
        return Ok(None);
    }
    let pattern = Name::from_text(alloc, "a*b")?;
    let Some(nfa) = nfa_of(alloc, &pattern)? else {
        return Ok(None);
    };
    let first_bytes = first_bytes_of(alloc, &pattern)?;
    let mut known = KnownLengths::new(alloc, &pattern, &nfa, &first_bytes, text);
    for _ in 0..searches {
        known.note_search(0, None);
    }
    Ok(known.length_at(0))
}

#[test]
fn lengths_are_found_where_searches_read_far(rt: HostRuntime) -> Result<(), Fail> {
    let alloc = rt.alloc();
    let far = "aaaaaaaaaaaaaaaaaaaaaaaaaaaaaaaaaaaaaaaaaaaaaaaaaaaaaaaaaaaaaaaaaaaaaaaa";
    assert_eq!(rt; known_after(alloc, 7, far)?, None);
    assert_eq!(rt; known_after(alloc, 8, far)?, Some(None));
    assert_eq!(rt; known_after(alloc, 99, "aaac")?, None);
    Ok(())
}
