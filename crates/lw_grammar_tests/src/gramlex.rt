use lw_base::{Name, Span};
use lw_gramlex::{
    FileKind, FileToken, Symbol, front_tokens, is_reserved, read_escapes, regex_text, string_value,
    word_name,
};
use std::process::Abort;
use std::test::Fail;

// The cut of the text up to its end, or up to the first token that can follow nowhere. Where more stands behind that one, it
// has a row of its own.
fn cut_of(rt: &(impl Abort + AllocGlobal), text: &str, wanted: &[(FileKind, u32, u32)]) {
    let file = Name::from_text(rt.alloc(), text).expect(rt, "memory");
    assert!(rt; file.bytes().len() <= 67108864);
    let tokens = front_tokens(rt.alloc(), &file).expect(rt, "memory");
    assert_eq!(rt; tokens.len(), wanted.len(), "{text:?}");
    for (token, (kind, start, end)) in tokens.iter().zip(wanted) {
        let span = Span {
            start: *start,
            end: *end,
        };
        assert_eq!(rt; *token, FileToken { kind: *kind, span }, "{text:?}");
    }
}

#[test]
fn words_and_symbols(rt: HostRuntime) {
    cut_of(&rt, "", &[]);
    cut_of(
        &rt,
        "grammar ^grammar model1:_a9;",
        &[
            (FileKind::Word, 0, 7),
            (FileKind::Word, 8, 16),
            (FileKind::Word, 17, 23),
            (FileKind::Symbol(Symbol::Colon), 23, 24),
            (FileKind::Word, 24, 27),
            (FileKind::Symbol(Symbol::Semicolon), 27, 28),
        ],
    );
    cut_of(&rt, "^ ^9a", &[(FileKind::Other, 0, 1)]);
    cut_of(&rt, "^9a", &[(FileKind::Other, 0, 1)]);
    cut_of(&rt, "9a", &[(FileKind::Other, 0, 1)]);
    cut_of(
        &rt,
        "...+=?=?=>->-",
        &[
            (FileKind::Symbol(Symbol::DotDot), 0, 2),
            (FileKind::Symbol(Symbol::Dot), 2, 3),
            (FileKind::Symbol(Symbol::PlusEquals), 3, 5),
            (FileKind::Symbol(Symbol::QuestionEquals), 5, 7),
            (FileKind::Symbol(Symbol::QuestionEquals), 7, 9),
            (FileKind::Symbol(Symbol::Greater), 9, 10),
            (FileKind::Symbol(Symbol::ThinArrow), 10, 12),
            (FileKind::Other, 12, 13),
        ],
    );
}

#[test]
fn strings_and_regexes(rt: HostRuntime) {
    cut_of(
        &rt,
        "'a\\'b' \"it's\" 'x\\\n",
        &[
            (FileKind::Text, 0, 6),
            (FileKind::Text, 7, 13),
            (FileKind::Other, 14, 15),
        ],
    );
    cut_of(
        &rt,
        "x\\\n",
        &[(FileKind::Word, 0, 1), (FileKind::Other, 1, 2)],
    );
    cut_of(
        &rt,
        "'a\nb' 'no",
        &[(FileKind::Text, 0, 5), (FileKind::Other, 6, 7)],
    );
    cut_of(
        &rt,
        "/[/\\]]*\\//gi /a\nb/",
        &[(FileKind::Regex(2), 0, 12), (FileKind::Other, 13, 14)],
    );
    cut_of(
        &rt,
        "a\nb/",
        &[
            (FileKind::Word, 0, 1),
            (FileKind::Word, 2, 3),
            (FileKind::Other, 3, 4),
        ],
    );
}

#[test]
fn what_is_passed_over(rt: HostRuntime) {
    cut_of(&rt, "//x\r/*y*/ /*/ * */ /*/", &[(FileKind::Other, 19, 20)]);
    cut_of(
        &rt,
        "*/",
        &[
            (FileKind::Symbol(Symbol::Star), 0, 1),
            (FileKind::Other, 1, 2),
        ],
    );
    cut_of(&rt, "€\u{a0}b//", &[(FileKind::Other, 0, 3)]);
    cut_of(&rt, "\u{a0}b//", &[(FileKind::Word, 2, 3)]);
}

// What each token of the text says, in order.
fn says(rt: &(impl Abort + AllocGlobal), text: &str, wanted: &[&str]) {
    let file = Name::from_text(rt.alloc(), text).expect(rt, "memory");
    assert!(rt; file.bytes().len() <= 67108864);
    let tokens = front_tokens(rt.alloc(), &file).expect(rt, "memory");
    assert_eq!(rt; tokens.len(), wanted.len(), "{text:?}");
    for k in 0..tokens.len() {
        let token = tokens[k].text(&file);
        let said = match tokens[k].kind {
            FileKind::Word => Name::from_text(rt.alloc(), word_name(token)),
            FileKind::Text => string_value(rt.alloc(), token),
            FileKind::Regex(flags) => Name::from_text(rt.alloc(), regex_text(token, flags)),
            _ => Name::from_text(rt.alloc(), token),
        };
        let said = said.expect(rt, "memory");
        assert_eq!(rt; said.text(), wanted[k], "{text:?}");
    }
}

#[test]
fn what_tokens_say(rt: HostRuntime) -> Result<(), Fail> {
    says(&rt, "^type type:€", &["type", "type", ":", "€"]);
    says(
        &rt,
        "'\\b\\f\\n\\r\\t\\v\\0\\'\\\"\\x\\€' \"'\"",
        &["\u{8}\u{c}\n\r\t\u{b}\0'\"x€", "'"],
    );
    says(&rt, "/a[/]\\/b/ /c/mi", &["a[/]\\/b", "c"]);
    assert_eq!(rt; read_escapes(rt.alloc(), "\\\\n\\")?.text(), "\\n\\");
    assert!(rt; is_reserved("type"));
    assert!(rt; is_reserved("Date"));
    assert!(rt; !is_reserved("^type"));
    assert!(rt; !is_reserved("Type"));
    Ok(())
}
