// That sets are made where there is memory, and what patterns are refused, by values worked by hand.
ghost use Rattle.std.specs.Prelude.{IfOk};
ghost use Rattle.lw_tokens.specs.Keywords.{AreKeywords};

use lw_base::{KindId, Name, NoMemory};
use lw_io::{MemPatterns, Patterns};
use lw_matchers::{TerminalSource, TokenSet};
use std::alloc::Global;
use std::process::Abort;
use std::test::Fail;

fn add_keyword(keywords: &mut Vec<Name>, word: Name) -> Result<(), NoMemory>
    requires { AreKeywords keywords.old.items }
    ensures { AreKeywords keywords.new.items }
{
    if word.text().is_empty() || keywords.contains(&word) {
        return Ok(());
    }
    keywords.push(word)?;
    Ok(())
}

fn keywords_of(alloc: Global, words: &[&str]) -> Result<Vec<Name>, NoMemory>
    ensures { IfOk result (λ keywords. AreKeywords keywords.items) }
{
    let mut keywords = Vec::new(alloc);
    for word in words {
        add_keyword(&mut keywords, Name::from_text(alloc, word)?)?;
    }
    Ok(keywords)
}

fn sources_of(alloc: Global, patterns: &[&str]) -> Result<Vec<TerminalSource>, NoMemory> {
    let mut sources = Vec::new(alloc);
    for pattern in patterns {
        sources.push(TerminalSource {
            name: Name::from_text(alloc, "T")?,
            pattern: Name::from_text(alloc, pattern)?,
            hidden: true,
        })?;
    }
    Ok(sources)
}

// The texts of the kinds, the places of the keywords that begin with `a`, and how many bytes each terminal
// matches at the start of the text, or `-`.
fn set_text(alloc: Global, set: &TokenSet, text: &str) -> Result<String, NoMemory> {
    let mut shown = String::new(alloc);
    for kind in 0..8u16 {
        if set.has_kind(KindId(kind)) {
            shown.push_str(set.kind_text(KindId(kind)).text())?;
        }
    }
    for place in set.keywords_starting(b'a') {
        shown.push_str(format!(in alloc; " {place}")?.as_str())?;
    }
    for matcher in set.matchers(alloc)?.iter_mut() {
        let length = matcher.match_length(text);
        shown.push_str(format!(in alloc; " {length:?}")?.as_str())?;
    }
    Ok(shown)
}

// The set that is made of these patterns, or the fault and how many patterns were refused until then.
fn answer_text(
    rt: &impl Abort,
    alloc: Global,
    sources: &[&str],
    patterns: &mut MemPatterns,
    text: &str,
) -> Result<String, NoMemory> {
    let keywords = keywords_of(alloc, &["as", "at", "by"])?;
    let terminals = sources_of(alloc, sources)?;
    assert!(rt; keywords.len() <= 100 && terminals.len() <= 100);
    match TokenSet::make(alloc, keywords, terminals, patterns) {
        Ok(set) => set_text(alloc, &set, text),
        Err(fault) => Ok(format!(in alloc; "{fault:?} {}", patterns.faults())?),
    }
}

#[test]
fn sets_are_made_or_the_first_pattern_that_does_not_serve_is_told(
    rt: HostRuntime,
) -> Result<(), Fail> {
    let alloc = rt.alloc();
    let mut listed = Vec::new(alloc);
    listed.push(Name::from_text(alloc, "no")?)?;
    let mut patterns = MemPatterns::new(listed);
    for (sources, text, answer) in [
        (
            ["\\s+", "a\\d", "b"],
            "a1a2",
            "'as''at''by'TTT 0 1 None Some(2) None",
        ),
        (
            ["\\s+", "a\\d", "b"],
            "a\u{0661}",
            "'as''at''by'TTT 0 1 None Some(3) None",
        ),
        (
            ["\\s+", "a\\d", "b"],
            "1a2",
            "'as''at''by'TTT 0 1 None None None",
        ),
        (["a", "b*", "no"], "", "EmptyMatch(1) 0"),
        (["a", "no", "b*"], "", "Refused(1) 1"),
        (["(", "b*", "no"], "", "Refused(0) 2"),
        (["a", "b", "c?"], "", "EmptyMatch(2) 2"),
        (["a", "b", "no"], "", "Refused(2) 3"),
    ] {
        let shown = answer_text(&rt, alloc, sources.as_slice(), &mut patterns, text)?;
        assert_eq!(rt; shown.as_str(), answer);
    }
    let last = patterns.refused().expect(&rt, "a text was refused");
    assert_eq!(rt; last.text(), "no");
    Ok(())
}
