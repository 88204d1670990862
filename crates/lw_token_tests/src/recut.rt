// From where texts are cut again, and what is known of the cut where more follows, by hand: a recutter that cuts all anew, or never knows
// what follows, keeps its contracts.
ghost use Rattle.std.specs.Prelude.{◌≡◌, ◌≤◌, IfOk, length};
ghost use Rattle.lw_base.specs.declared.limits.TheConstants.{LONGEST_TEXT};

use lw_base::{Name, NoMemory};
use lw_io::MemPatterns;
use lw_lexer::recut::Recutter;
use lw_lexer::{LexFault, Lexer, LexerTables};
use lw_matchers::{TerminalSource, TokenSet};
use std::alloc::Global;
use std::process::Abort;
use std::test::Fail;

// Blank space, a comment, a name and a sign.
const TERMINALS: [(&str, bool); 4] = [
    (r"\s+", true),
    (r"/\*[\s\S]*?\*/", true),
    ("[a-z]+", false),
    ("==?|[;/]", false),
];

fn terminals(alloc: Global) -> Result<Vec<TerminalSource>, NoMemory> {
    let mut sources = Vec::new(alloc);
    for (pattern, hidden) in TERMINALS {
        sources.push(TerminalSource {
            name: Name::from_text(alloc, "T")?,
            pattern: Name::from_text(alloc, pattern)?,
            hidden,
        })?;
    }
    Ok(sources)
}

fn tables(rt: &impl Abort, alloc: Global) -> Result<LexerTables, NoMemory> {
    let terminals = terminals(alloc)?;
    assert!(rt; terminals.len() <= 100);
    let mut patterns = MemPatterns::new(Vec::new(alloc));
    let made = TokenSet::make(alloc, Vec::new(alloc), terminals, &mut patterns);
    LexerTables::of(alloc, made.expect(rt, "the patterns are made"))
}

// What cuts texts that begin with this one.
fn recutter<'a>(
    rt: &impl Abort,
    alloc: Global,
    tables: &'a LexerTables,
    front: &str,
) -> Result<Recutter<'a>, NoMemory> {
    let front = Name::from_text(alloc, front)?;
    assert!(rt; front.text().len() <= 1000);
    match Lexer::new(alloc, tables)?.cut(alloc, &front) {
        Ok(tokens) => Recutter::of(alloc, tables, &front, tokens.as_slice()),
        Err(LexFault::NoToken(_)) => panic!(rt; "the text is cut"),
        Err(LexFault::NoMemory) => Err(NoMemory),
    }
}

// From which byte on the text is cut again with more behind it, and what is known of its cut where the rest follows that; or `none`.
fn shown(
    rt: &impl Abort,
    alloc: Global,
    tables: &LexerTables,
    front: &str,
    more: &str,
    rest: &str,
) -> Result<String, NoMemory> {
    let mut recutter = recutter(rt, alloc, tables, front)?;
    match recutter.cut(alloc, more)? {
        Some(it) => {
            let seam = recutter.seam(alloc, &it, rest)?;
            Ok(format!(in alloc; "{} {seam:?}", it.from)?)
        }
        None => Ok(String::from_str(alloc, "none")?),
    }
}

#[test]
fn little_is_cut_again_and_the_seam_is_known(rt: HostRuntime) -> Result<(), Fail> {
    let alloc = rt.alloc();
    let tables = tables(&rt, alloc)?;
    for (front, more, rest, answer) in [
        ("", "a", " ", "0 Meets"),
        // Another blank may follow the last token of the text, and nothing changes the others.
        ("a = b; ", "c", "", "6 Meets"),
        ("a = b; ", "c", "; d", "6 Meets"),
        ("a = b; ", "c", "d; e", "6 Crossed"),
        ("a /* = */ ", "b", " /", "9 Meets"),
        // A comment begins with the sign that is added.
        ("a /* = */ ", "/", "* b */ c", "9 Crossed"),
        ("a ", "=", "= b", "1 Crossed"),
        // The last name stays only where no letter is added to it.
        ("a = b", " ", "; ", "4 Meets"),
        ("a = b", "c", ";", "none"),
        ("a = ", "?", "", "none"),
    ] {
        let shown = shown(&rt, alloc, &tables, front, more, rest)?;
        assert_eq!(rt; shown.as_str(), answer, "at {front}|{more}|{rest}");
    }
    Ok(())
}
