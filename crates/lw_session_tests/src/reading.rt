// What texts read as: the tree of each, or the place of its one fault. Worked by hand.
ghost use Rattle.std.specs.Prelude.{◌<◌, length};
ghost use Rattle.lw_reading.specs.Issues.{IsNamed};

use lw_base::{Name, NoMemory, NodeId, Span};
use lw_io::{MemPatterns, MemStore};
use lw_lang::{Issue, Language, Parsed, compile};
use lw_tree::{Tree, Value};
use std::alloc::Global;
use std::process::Abort;
use std::test::Fail;

/// The state language.
const STATES: &str =
    "grammar S entry Model: 'model' name=ID states+=State*; State: 'state' name=ID ('to' next+=[State:ID])* 'end'; hidden terminal WS: /\\s+/; terminal ID: /[_a-zA-Z][\\w_]*/;";

/// Two ways that begin and end alike.
const ALIKE: &str = "grammar E entry A: 'a' b='b' 'c' | 'a' d='d' 'c';";

/// A value of each kind.
const VALUES: &str =
    "grammar V entry A: k='k'? i=ID? s=STRING? n+=N* f?='!' d=D? ('@' r=[A:D])?; D: '.' ID ',' ID; terminal ID: /\\^?[a-j]+/; terminal STRING: /\"(\\\\.|[^\"])*\"/; terminal N returns number: /[+-]?[0-9]+(\\.[0-9]+)?/; hidden terminal WS: /\\s+/;";

/// Sums, with the sum so far at the left of the next.
const SUMS: &str =
    "grammar P entry E: P ({infer Sum.left=current} '+' right=P)*; P infers E: '(' E ')' | {infer Num} v=N; terminal N returns number: /[0-9]+/;";

fn language(rt: &impl Abort, alloc: Global, grammar: &str) -> Result<Language, NoMemory> {
    let root = Name::from_text(alloc, "g.langium")?;
    let mut held = Vec::new(alloc);
    held.push((root.copy(alloc)?, grammar.as_bytes().to_vec(alloc)?))?;
    let mut store = MemStore::new(held, Vec::new(alloc));
    let mut patterns = MemPatterns::new(Vec::new(alloc));
    match compile(alloc, &root, 2, &mut store, &mut patterns) {
        Ok(language) => Ok(language),
        Err(_) => panic!(rt; "the grammar is not compiled: {grammar}"),
    }
}

/// A span as its two ends.
fn ends(alloc: Global, span: Span) -> Result<String, NoMemory> {
    let start = span.start;
    let end = span.end;
    Ok(format!(in alloc; "{start}-{end}")?)
}

/// A value: a text in quotes, a number, what a token says that is no number in parentheses; a node and a reference by their numbers.
fn shown_value(alloc: Global, value: &Value) -> Result<String, NoMemory> {
    match value {
        Value::Text(text, _) => Ok(format!(in alloc; " '{text}'")?),
        Value::Number(number, _) => Ok(format!(in alloc; " {number}")?),
        Value::Huge(_) => Ok(String::from_str(alloc, " huge")?),
        Value::Raw(text, _) => Ok(format!(in alloc; " ({text})")?),
        Value::Truth(_) => Ok(String::from_str(alloc, " true")?),
        Value::Child(node) => {
            let number = node.0;
            Ok(format!(in alloc; " >{number}")?)
        }
        Value::Refers(reference) => {
            let number = reference.0;
            Ok(format!(in alloc; " @{number}")?)
        }
    }
}

/// A node: its type by its number, where it stands, and its container.
fn shown_node(alloc: Global, tree: &Tree, number: u32) -> Result<String, NoMemory>
    requires { number < length tree.now.nodes }
{
    let node = *tree.node(NodeId(number));
    let type_id = node.type_id.0;
    let place = ends(alloc, node.span)?;
    match node.container {
        None => Ok(format!(in alloc; "{type_id}:{place}")?),
        Some(above) => {
            let above = above.0;
            Ok(format!(in alloc; " {type_id}:{place}<{above}")?)
        }
    }
}

/// A tree: its nodes, the values of all, and its references by the name that each looks up and where that stands.
fn shown_tree(alloc: Global, tree: &Tree) -> Result<String, NoMemory> {
    let mut shown = String::new(alloc);
    for number in 0..tree.len() {
        shown.push_str(shown_node(alloc, tree, number)?.as_str())?;
    }
    for entry in tree.all_values() {
        shown.push_str(shown_value(alloc, &entry.2)?.as_str())?;
    }
    for reference in tree.refs() {
        let owner = reference.owner.0;
        let place = ends(alloc, reference.span)?;
        let name = &reference.name;
        shown.push_str(format!(in alloc; " {owner}->{name}:{place}")?.as_str())?;
    }
    Ok(shown)
}

/// A fault by its place and the kind that it names.
fn shown_issue(alloc: Global, language: &Language, issue: Issue) -> Result<String, NoMemory>
    requires { IsNamed language.now.texts issue }
{
    match issue {
        Issue::Lexical(span) => {
            let place = ends(alloc, span)?;
            Ok(format!(in alloc; "lexical {place}")?)
        }
        Issue::Syntax(span, kind) => {
            let place = ends(alloc, span)?;
            let kind = language.kind_text(kind);
            Ok(format!(in alloc; "syntax {place} {kind}")?)
        }
        Issue::End(at) => Ok(format!(in alloc; "end {at}")?),
        Issue::TooLarge => Ok(String::from_str(alloc, "too large")?),
    }
}

fn shown(alloc: Global, language: &Language, text: &str) -> Result<String, NoMemory> {
    match language.read(alloc, &Name::from_text(alloc, text)?)? {
        Parsed::Whole(tree) => shown_tree(alloc, &tree),
        Parsed::Broken(issue) => shown_issue(alloc, language, issue),
    }
}

/// What each kind of value says, by the terminal or the data type rule that reads it.
const SAID: [(&str, &[(&str, &str)]); 10] = [
    (
        "grammar K entry A: v='state';",
        &[("state", "0:0-5 'state'")],
    ),
    (
        "grammar I entry A: v=ID; terminal ID: /.+/;",
        &[
            ("ab", "0:0-2 'ab'"),
            ("^ab", "0:0-3 'ab'"),
            ("^^ab", "0:0-4 '^ab'"),
            ("a^b", "0:0-3 'a^b'"),
            ("^", "0:0-1 ''"),
        ],
    ),
    (
        "grammar T entry A: v=STRING; terminal STRING: /.+/;",
        &[
            ("\"it's\"", "0:0-6 'it's'"),
            ("'a b'", "0:0-5 'a b'"),
            ("''", "0:0-2 ''"),
            ("\"", "0:0-1 '\"'"),
            ("€", "0:0-3 '€'"),
            ("€a€", "0:0-7 'a'"),
            (
                "'\\b\\f\\n\\r\\t\\v\\0'",
                "0:0-16 '\u{8}\u{c}\n\r\t\u{b}\0'",
            ),
            ("'\\x\\'\\\"\\\\\\€'", "0:0-14 'x'\"\\€'"),
            ("'\\\\n'", "0:0-5 '\\n'"),
            ("'a\\'", "0:0-4 'a\\'"),
        ],
    ),
    (
        "grammar N entry A: v=N; terminal N returns number: /.+/;",
        &[
            ("0", "0:0-1 0"),
            ("-0", "0:0-2 0"),
            ("+7", "0:0-2 7"),
            ("00000000000000000000012", "0:0-23 12"),
            ("9223372036854775807", "0:0-19 9223372036854775807"),
            ("+9223372036854775808", "0:0-20 huge"),
            ("-9223372036854775808", "0:0-20 -9223372036854775808"),
            ("-9223372036854775809", "0:0-20 huge"),
            ("1.5", "0:0-3 (1.5)"),
            ("1_000", "0:0-5 (1_000)"),
            ("٣", "0:0-2 (٣)"),
            ("+", "0:0-1 (+)"),
            ("--1", "0:0-3 (--1)"),
        ],
    ),
    (
        "grammar O entry A: v=T; terminal T: /.+/;",
        &[
            ("^ab", "0:0-3 '^ab'"),
            ("'a\\n'", "0:0-5 ''a\\n''"),
            ("12", "0:0-2 '12'"),
        ],
    ),
    (
        "grammar D entry A: v=D; D: T+; terminal T: /[^ ]+/; hidden terminal WS: / +/;",
        &[("a . ^b", "0:0-6 'a.^b'"), ("'a' €", "0:0-7 ''a'€'")],
    ),
    (
        "grammar F entry A: v?=D; D: T+; terminal T: /[^ ]+/; hidden terminal WS: / +/;",
        &[("!", "0:0-1 true"), ("a . b", "0:0-5 true")],
    ),
    (
        "grammar C entry A: v=[A:ID]; terminal ID: /.+/;",
        &[("^ab", "0:0-3 @0 0->ab:0-3")],
    ),
    (
        "grammar C entry A: v=[A:STRING]; terminal STRING: /.+/;",
        &[("'\\n'", "0:0-4 @0 0->\n:0-4")],
    ),
    (
        "grammar C entry A: v=[A:D]; D: T+; terminal T: /[^ ]+/; hidden terminal WS: / +/;",
        &[
            ("+007", "0:0-4 @0 0->+007:0-4"),
            ("a . b", "0:0-5 @0 0->a.b:0-5"),
        ],
    ),
];

/// Each grammar with its texts and what they read as.
const ROWS: [(&str, &[(&str, &str)]); 4] = [
    (
        STATES,
        &[
            ("model m", "0:0-7 'm'"),
            ("", "end 0"),
            ("model state", "syntax 6-11 'state'"),
            ("model m €", "lexical 8-11"),
            (
                "model m state a to b end",
                "0:0-24 1:8-24<0 'm' >1 'a' @0 1->b:19-20",
            ),
            ("model m state a to end", "syntax 19-22 'end'"),
            ("model m state a", "end 15"),
        ],
    ),
    (
        ALIKE,
        &[
            ("abc", "0:0-3 'b'"),
            ("adc", "0:0-3 'd'"),
            ("ac", "syntax 1-2 'c'"),
            ("aba", "syntax 2-3 'a'"),
        ],
    ),
    (
        VALUES,
        &[
            ("!", "0:0-1 true"),
            ("k ^k !", "lexical 2-3"),
            ("k ^ab !", "0:0-7 'k' 'ab' true"),
            (
                "\"a\\n\\\"\" +7 -9223372036854775808 9223372036854775808 1.5 !",
                "0:0-57 'a\n\"' 7 -9223372036854775808 huge (1.5) true",
            ),
            ("! . a , b", "0:0-9 true '.a,b'"),
            ("! .a,b @ .^c , d", "0:0-16 true '.a,b' @0 0->.^c,d:9-16"),
        ],
    ),
    (
        SUMS,
        &[
            ("1", "2:0-1 1"),
            ("1+2", "1:0-3 2:0-1<0 2:2-3<0 >1 >2 1 2"),
            (
                "(1+2)+3",
                "1:0-7 1:0-5<0 2:1-2<1 2:3-4<1 2:6-7<0 >1 >4 >2 >3 1 2 3",
            ),
            ("1+", "end 2"),
        ],
    ),
];

/// Each of these texts reads as its row says.
fn are_read(
    rt: &impl Abort,
    alloc: Global,
    language: &Language,
    rows: &[(&str, &str)],
) -> Result<(), NoMemory> {
    for (text, expected) in rows {
        let found = shown(alloc, language, text)?;
        assert_eq!(rt; found.as_str(), *expected, "{text}");
    }
    Ok(())
}

fn are_all_read(
    rt: &impl Abort,
    alloc: Global,
    rows: &[(&str, &[(&str, &str)])],
) -> Result<(), NoMemory> {
    for (grammar, texts) in rows {
        let language = language(rt, alloc, grammar)?;
        are_read(rt, alloc, &language, texts)?;
    }
    Ok(())
}

#[test]
fn texts_are_read(rt: HostRuntime) -> Result<(), Fail> {
    are_all_read(&rt, rt.alloc(), ROWS.as_slice())?;
    are_all_read(&rt, rt.alloc(), SAID.as_slice())?;
    Ok(())
}
