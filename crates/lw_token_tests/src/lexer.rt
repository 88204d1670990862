// Texts and their tokens, worked by hand from the five rules, and that the calls succeed where there is
// memory.
ghost use Rattle.std.specs.Prelude.{IfOk};
ghost use Rattle.lw_tokens.specs.Keywords.{AreKeywords};

use lw_base::{Name, NoMemory, Token};
use lw_io::MemPatterns;
use lw_lexer::{LexFault, Lexer, LexerTables};
use lw_matchers::{TerminalSource, TokenSet};
use std::alloc::Global;
use std::process::Abort;
use std::test::Fail;

fn add_keyword(keywords: &mut Vec<Name>, word: Name) -> Result<(), NoMemory>
    requires { AreKeywords keywords.old.items }
    ensures { AreKeywords keywords.new.items }
{
    if word.text().is_empty() || keywords.contains(&word) {
        return Ok(());
    }
    keywords.push(word)?;
    Ok(())
}

fn keywords_of(alloc: Global, words: &[&str]) -> Result<Vec<Name>, NoMemory>
    ensures { IfOk result (λ keywords. AreKeywords keywords.items) }
{
    let mut keywords = Vec::new(alloc);
    for word in words {
        add_keyword(&mut keywords, Name::from_text(alloc, word)?)?;
    }
    Ok(keywords)
}

fn source_of(alloc: Global, source: &(&str, &str, bool)) -> Result<TerminalSource, NoMemory> {
    Ok(TerminalSource {
        name: Name::from_text(alloc, source.0)?,
        pattern: Name::from_text(alloc, source.1)?,
        hidden: source.2,
    })
}

fn sources_of(
    alloc: Global,
    sources: &[(&str, &str, bool)],
) -> Result<Vec<TerminalSource>, NoMemory> {
    let mut terminals = Vec::new(alloc);
    for source in sources {
        terminals.push(source_of(alloc, source)?)?;
    }
    Ok(terminals)
}

// Each token as its kind and span, with `h` where it is hidden.
fn tokens_text(alloc: Global, tokens: &[Token]) -> Result<String, NoMemory> {
    let mut shown = String::new(alloc);
    for token in tokens {
        shown.push_str(token_text(alloc, token)?.as_str())?;
    }
    Ok(shown)
}

fn token_text(alloc: Global, token: &Token) -> Result<String, NoMemory> {
    let hidden = if token.hidden { "h" } else { "" };
    Ok(format!(in alloc;
        "{}{}:{}..{} ",
        token.kind.0, hidden, token.span.start, token.span.end
    )?)
}

// The tokens of the text, or the fault.
fn shown(
    rt: &impl Abort,
    alloc: Global,
    lexer: &mut Lexer<'_>,
    text: &str,
) -> Result<String, NoMemory> {
    let text = Name::from_text(alloc, text)?;
    assert!(rt; text.text().len() <= 1000);
    match lexer.cut(alloc, &text) {
        Ok(tokens) => tokens_text(alloc, tokens.as_slice()),
        Err(LexFault::NoToken(s)) => Ok(format!(in alloc; "none at {}..{}", s.start, s.end)?),
        Err(LexFault::NoMemory) => Err(NoMemory),
    }
}

// Cuts texts.
fn check_texts(
    rt: &impl Abort,
    alloc: Global,
    mut lexer: Lexer<'_>,
    cuts: &[(&str, &str)],
) -> Result<(), NoMemory> {
    for (text, tokens) in cuts {
        assert_eq!(rt;
            shown(rt, alloc, &mut lexer, text)?.as_str(),
            *tokens,
            "at {text}"
        );
    }
    Ok(())
}

// How many bytes the front takes that is known at the start of each text, or none.
fn check_fronts(rt: &impl Abort, tables: &LexerTables, fronts: &[(&str, usize)]) {
    for (text, bytes) in fronts {
        let known = tables.known_next(text).map_or(0, |next| next.bytes);
        assert_eq!(rt; known, *bytes, "at {text}");
    }
}

// Makes a set of these words and terminals, and cuts texts by it.
fn check_cuts(
    rt: &impl Abort,
    alloc: Global,
    words: &[&str],
    sources: &[(&str, &str, bool)],
    cuts: &[(&str, &str)],
    fronts: &[(&str, usize)],
) -> Result<(), NoMemory> {
    let keywords = keywords_of(alloc, words)?;
    let terminals = sources_of(alloc, sources)?;
    assert!(rt; keywords.len() <= 100 && terminals.len() <= 100);
    let mut patterns = MemPatterns::new(Vec::new(alloc));
    let made = TokenSet::make(alloc, keywords, terminals, &mut patterns);
    let set = made.expect(rt, "the patterns are made");
    let tables = LexerTables::of(alloc, set)?;
    check_fronts(rt, &tables, fronts);
    check_texts(rt, alloc, Lexer::new(alloc, &tables)?, cuts)
}

#[test]
fn texts_are_cut_by_the_five_rules(rt: HostRuntime) -> Result<(), Fail> {
    // Kinds 0 to 3 are the keywords, 4 to 8 the terminals.
    let words = ["model", "/", "ent", "entity"];
    let sources = [
        ("WS", "\\s+", true),
        ("COMMENT", "//[^\\n]*", true),
        ("Q", "q", false),
        ("ID", "[_a-zA-Z][\\w_]*", false),
        ("INT", "[0-9]+", false),
    ];
    let cuts = [
        ("", ""),
        ("model m", "0:0..5 4h:5..6 7:6..7 "),
        // The longer terminal takes the place of the keyword.
        ("model1", "7:0..6 "),
        ("entit", "7:0..5 "),
        // At equal length the keyword stays, and of the keywords the longest.
        ("entity", "3:0..6 "),
        ("ent 12", "2:0..3 4h:3..4 8:4..6 "),
        ("/ //x\n/", "1:0..1 4h:1..2 5h:2..5 4h:5..6 1:6..7 "),
        // Where there is no keyword the first terminal wins, though another reads more.
        ("qq", "6:0..1 6:1..2 "),
        ("naïve", "7:0..6 "),
        ("m é", "none at 2..4"),
        ("ï", "none at 0..2"),
        ("m 😀 m", "none at 2..6"),
    ];
    let fronts = [
        ("model m", 5),
        ("model", 0),
        ("model1 ", 0),
        ("ent;", 3),
        ("entity ", 6),
        ("/ ", 1),
        ("//", 0),
        (" m", 1),
        ("  m", 0),
        ("\n/", 1),
        ("q ", 0),
    ];
    let alloc = rt.alloc();
    check_cuts(
        &rt,
        alloc,
        words.as_slice(),
        sources.as_slice(),
        cuts.as_slice(),
        fronts.as_slice(),
    )?;
    // A match at a later place is none.
    let odd = [("ODD", "x)|(y", false)];
    let cuts = [
        ("xyx", "0:0..1 0:1..2 0:2..3 "),
        ("zy", "none at 0..1"),
        ("yzx", "none at 1..2"),
    ];
    check_cuts(&rt, alloc, &[], odd.as_slice(), cuts.as_slice(), &[])?;
    Ok(())
}

#[test]
fn patterns_that_read_far_match_where_they_do(rt: HostRuntime) -> Result<(), Fail> {
    // No letter of the long row begins a ROW, which is known of them all by then; behind the row `aab` is one still, and only `!` is no token.
    let sources = [("ROW", "a*b", false), ("LETTER", "[a;]", false)];
    let cuts = [(
        "aaaaaaaaaaaaaaaaaaaaaaaaaaaaaaaaaaaaaaaaaaaaaaaaaaaaaaaaaaaaaaaaaaaaaaaaaaaaaaaaaaaaaaaaaaaaaaaaaaaa;aab!",
        "none at 104..105",
    )];
    check_cuts(
        &rt,
        rt.alloc(),
        &[],
        sources.as_slice(),
        cuts.as_slice(),
        &[],
    )?;
    Ok(())
}
