// What is foreseen of the patterns that grammars have, by hand.
use lw_base::{Name, NoMemory};
use lw_matching::{Walker, first_bytes_of, nfa_of};
use std::alloc::Global;
use std::test::Fail;

// What is foreseen at the start of each text, of those between the bars: `?` where nothing is, `-` where there is no match.
fn foreseen_text(
    alloc: Global,
    pattern: &str,
    texts: &str,
    steps: u32,
) -> Result<String, NoMemory> {
    let mut shown = String::new(alloc);
    let pattern = Name::from_text(alloc, pattern)?;
    let Some(nfa) = nfa_of(alloc, &pattern)? else {
        return Ok(shown);
    };
    let mut walker = Walker::new(alloc, steps);
    for text in texts.split('|') {
        match walker.foreseen_length(&nfa, text) {
            None => shown.push_str("? ")?,
            Some(None) => shown.push_str("- ")?,
            Some(Some(bytes)) => shown.push_str(format!(in alloc; "{bytes} ")?.as_str())?,
        }
    }
    Ok(shown)
}

const NAME: &str = r"[_a-zA-Z][\w_]*";

const SPACES: &str = r"\s+";

const NUMBER: &str = r"[0-9]+(\.[0-9]+)?";

const COMMENT: &str = r"/\*[\s\S]*?\*/";

const LINE: &str = r"//[^\n\r]*";

const STRING: &str = "\"(\\\\.|[^\"\\\\])*\"|'(\\\\.|[^'\\\\])*'";

const WORD: &str = r"(?:end|endif)\b";

const LAST: &str = r"a$";

#[test]
fn patterns_of_grammars_are_foreseen(rt: HostRuntime) -> Result<(), Fail> {
    let alloc = rt.alloc();
    for (pattern, texts, answer) in [
        (NAME, "ab |ab|a\u{e9}b c|(|", "2 ? 4 - ? "),
        (SPACES, " \n\tx| |x|\u{a0}\u{2003}x|\u{a0}", "3 ? - 5 ? "),
        (NUMBER, "12.x|12.|1.5 |1.5|1 ", "2 ? 3 ? 1 "),
        (COMMENT, "/**/|/* a\n*b*/ c|/* *|/|/ 2", "4 9 ? ? - "),
        (LINE, "// a\nb|// a|/* |/|//\r", "4 ? - ? 2 "),
        (STRING, "\"a\\\"b\" |'it'|\"open |x|'\\", "6 4 ? - ? "),
        (WORD, "end |end|endif;|ending|en ", "3 ? 5 - - "),
        (LAST, "a\n|a|ab|b|aa", "- ? - - - "),
        ("[", "[|a", ""),
    ] {
        let shown = foreseen_text(alloc, pattern, texts, 1000)?;
        assert_eq!(rt; shown.as_str(), answer);
    }
    let without_steps = foreseen_text(alloc, LAST, "b", 0)?;
    assert_eq!(rt; without_steps.as_str(), "? ");
    Ok(())
}

// Of each byte of the text whether a match may begin with it: `+` where it may, `-` where it is known that none does.
fn first_bytes_text(alloc: Global, pattern: &str, text: &str) -> Result<String, NoMemory> {
    let mut shown = String::new(alloc);
    let flags = first_bytes_of(alloc, &Name::from_text(alloc, pattern)?)?;
    for byte in text.as_bytes() {
        shown.push_str(if flags[*byte as usize] { "+" } else { "-" })?;
    }
    Ok(shown)
}

// The last two characters are the bytes E1 9A 80 and C3 A9.
const BYTES: &str = "aE_0 \n/\"'\u{1680}\u{e9}";

#[test]
fn bytes_with_which_no_match_begins_are_ruled_out(rt: HostRuntime) -> Result<(), Fail> {
    let alloc = rt.alloc();
    for (pattern, answer) in [
        (NAME, "+++-----------"),
        (r"\w+", "++++-----+--+-"),
        (SPACES, "----++---+----"),
        (NUMBER, "---+----------"),
        (COMMENT, "------+-------"),
        (LINE, "------+-------"),
        (STRING, "-------++-----"),
        (WORD, "--------------"),
        (LAST, "+-------------"),
        ("ab|E?0", "++-+----------"),
        ("a*", "++++++++++++++"),
        ("[", "++++++++++++++"),
    ] {
        let shown = first_bytes_text(alloc, pattern, BYTES)?;
        assert_eq!(rt; shown.as_str(), answer);
    }
    Ok(())
}
