// How many tokens of a front stand, by hand.
ghost use Rattle.std.specs.Prelude.{◌≡◌, All, IfOk, IsCharBoundary};

use lw_base::{KindId, Name, NoMemory, Span, Token};
use lw_matching::sure::sure_tokens;
use lw_matching::{Walker, nfas_of};
use std::alloc::Global;
use std::test::Fail;

// The kinds 0 to 3.
const KEYWORDS: [&str; 4] = ["=", "==", ";", "/"];

// The kinds 4 to 9: blank space, a comment of a line, a comment, a name, a number and a string.
const PATTERNS: [&str; 6] = [
    r"\s+",
    r"//[^\n\r]*",
    r"/\*[\s\S]*?\*/",
    r"[_a-zA-Z][\w_]*",
    r"[0-9]+(\.[0-9]+)?",
    "\"(\\\\.|[^\"\\\\])*\"",
];

fn names(alloc: Global, texts: &[&str]) -> Result<Vec<Name>, NoMemory> {
    let mut names = Vec::new(alloc);
    for text in texts {
        names.push(Name::from_text(alloc, text)?)?;
    }
    Ok(names)
}

// The tokens of a front, of which each byte has its kind as a digit: a token ends where the digit changes.
fn tokens_of(alloc: Global, front: &str, kinds: &[u8]) -> Result<Vec<Token>, NoMemory>
    ensures { IfOk result (λ tokens. All (λ t. IsCharBoundary front.now t.span.start) tokens.items) }
{
    let mut tokens = Vec::new(alloc);
    let mut start = 0u32;
    let mut end = 0u32;
    for digit in kinds {
        end = end.wrapping_add(1);
        if kinds.get(end as usize) != Some(digit) {
            if front.is_char_boundary(start as usize) {
                tokens.push(token(*digit, start, end))?;
            }
            start = end;
        }
    }
    Ok(tokens)
}

fn token(digit: u8, start: u32, end: u32) -> Token
    ensures { result.span.start ≡ start }
{
    Token {
        kind: KindId(digit.wrapping_sub(b'0') as u16),
        span: Span { start, end },
        hidden: false,
    }
}

// How many of how many tokens stand.
fn shown(alloc: Global, front: &str, kinds: &str, steps: u32) -> Result<String, NoMemory> {
    let keywords = names(alloc, KEYWORDS.as_slice())?;
    let patterns = names(alloc, PATTERNS.as_slice())?;
    let Some(nfas) = nfas_of(alloc, &patterns)? else {
        return Ok(String::new(alloc));
    };
    let tokens = tokens_of(alloc, front, kinds.as_bytes())?;
    let mut walker = Walker::new(alloc, steps);
    let sure = sure_tokens(&keywords, &nfas, front, &tokens, &mut walker);
    Ok(format!(in alloc; "{sure} of {}", tokens.len())?)
}

#[test]
fn tokens_stand_up_to_what_the_end_leaves_open(rt: HostRuntime) -> Result<(), Fail> {
    let alloc = rt.alloc();
    for (front, kinds, steps, answer) in [
        ("", "", 999, "0 of 0"),
        ("ab", "77", 999, "0 of 1"),
        ("ab;", "772", 999, "2 of 2"),
        ("a\u{e9};", "7772", 999, "2 of 2"),
        ("ab;", "772", 0, "0 of 2"),
        ("1.5e", "8887", 999, "1 of 2"),
        ("a/", "73", 999, "1 of 2"),
        ("a/ ", "734", 999, "2 of 3"),
        ("a=", "70", 999, "1 of 2"),
        ("a==", "711", 999, "2 of 2"),
        ("ab /*x*/ cd", "77466666477", 999, "4 of 5"),
        ("ab /*x*/ cd ", "774666664774", 999, "5 of 6"),
        // No token stands behind these.
        ("ab // x\n12.", "7745555488", 999, "4 of 5"),
        ("ab 1 /* cd ef", "774843", 999, "4 of 5"),
        ("ab \"it cd", "774", 999, "2 of 2"),
        ("ab \"it\" = c;", "774999940472", 999, "8 of 8"),
    ] {
        let shown = shown(alloc, front, kinds, steps)?;
        assert_eq!(rt; shown.as_str(), answer);
    }
    Ok(())
}
