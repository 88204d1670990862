// What no clause says of reading a grammar file: that each form is read where there is memory, and where a file goes wrong. Worked by hand.
use lw_base::{Items, Name, Span};
use lw_grammar::{
    Action, Attribute, Element, Grammar, Interface, Member, Op, Primitive, Rule, RuleResult,
    TermElement, Terminal, UnionDef, Value0,
};
use lw_gramread::{ReadFault, read_grammar};
use std::alloc::{AllocError, Global};
use std::process::Abort;
use std::test::Fail;

// ---- a grammar as a line

fn put(out: &mut String, text: &str) -> Result<(), AllocError> {
    out.push_str(text)
}

fn put_span(alloc: Global, out: &mut String, span: Span) -> Result<(), AllocError> {
    let text = format!(in alloc; "@{}-{}", span.start, span.end)?;
    put(out, text.as_str())
}

fn put_named(alloc: Global, out: &mut String, name: &Name, span: Span) -> Result<(), AllocError> {
    put(out, name.text())?;
    put_span(alloc, out, span)
}

fn put_quoted(alloc: Global, out: &mut String, text: &Name, span: Span) -> Result<(), AllocError> {
    put(out, "'")?;
    put(out, text.text())?;
    put(out, "'")?;
    put_span(alloc, out, span)
}

fn sign_of(op: Op) -> &'static str {
    match op {
        Op::One => "=",
        Op::Add => "+=",
        Op::Flag => "?=",
    }
}

fn word_of(primitive: Primitive) -> &'static str {
    match primitive {
        Primitive::Text => "string",
        Primitive::Number => "number",
        Primitive::Boolean => "boolean",
        Primitive::BigInt => "bigint",
        Primitive::Date => "Date",
    }
}

#[cycle(show_values)]
fn put_value(alloc: Global, out: &mut String, value: &Value0) -> Result<(), AllocError> {
    match value {
        Value0::Keyword(text, span) => put_quoted(alloc, out, text, *span),
        Value0::Call(name, span) => put_named(alloc, out, name, *span),
        Value0::Cross(name, rule, span) => put_cross(alloc, out, name, rule, *span),
        Value0::Choice(values, span) => {
            put_values(alloc, out, values)?;
            put_span(alloc, out, *span)
        }
    }
}

#[cycle(show_values)]
fn put_values(alloc: Global, out: &mut String, values: &Items<Value0>) -> Result<(), AllocError> {
    put(out, "(|")?;
    for value in values.as_slice() {
        put(out, " ")?;
        put_value(alloc, out, value)?;
    }
    put(out, ")")
}

fn put_cross(
    alloc: Global,
    out: &mut String,
    name: &Name,
    rule: &Option<Name>,
    span: Span,
) -> Result<(), AllocError> {
    put(out, "[")?;
    put(out, name.text())?;
    if let Some(rule) = rule {
        put(out, ":")?;
        put(out, rule.text())?;
    }
    put(out, "]")?;
    put_span(alloc, out, span)
}

fn put_action(alloc: Global, out: &mut String, action: &Action) -> Result<(), AllocError> {
    put(out, if action.infers { "{infer " } else { "{" })?;
    put(out, action.type_name.text())?;
    if let Some((property, is_list)) = &action.put {
        put(out, ".")?;
        put(out, property.text())?;
        put(out, if *is_list { "+=" } else { "=" })?;
    }
    put(out, "}")?;
    put_span(alloc, out, action.span)
}

#[cycle(show_elements)]
fn put_element(alloc: Global, out: &mut String, element: &Element) -> Result<(), AllocError> {
    match element {
        Element::Keyword(text, span) => put_quoted(alloc, out, text, *span),
        Element::Call(name, span) => put_named(alloc, out, name, *span),
        Element::Assign(name, op, value, span) => {
            put(out, name.text())?;
            put(out, sign_of(*op))?;
            put_value(alloc, out, value)?;
            put_span(alloc, out, *span)
        }
        Element::Act(action) => put_action(alloc, out, action),
        Element::Group(elements, span) => {
            put_elements(alloc, out, "(", elements)?;
            put_span(alloc, out, *span)
        }
        Element::Choice(elements, span) => {
            put_elements(alloc, out, "(|", elements)?;
            put_span(alloc, out, *span)
        }
        Element::Maybe(inner, span) => {
            put_element(alloc, out, inner.get())?;
            put(out, "?")?;
            put_span(alloc, out, *span)
        }
        Element::Many(inner, span) => {
            put_element(alloc, out, inner.get())?;
            put(out, "*")?;
            put_span(alloc, out, *span)
        }
        Element::Some1(inner, span) => {
            put_element(alloc, out, inner.get())?;
            put(out, "+")?;
            put_span(alloc, out, *span)
        }
    }
}

#[cycle(show_elements)]
fn put_elements(
    alloc: Global,
    out: &mut String,
    open: &str,
    elements: &Items<Element>,
) -> Result<(), AllocError> {
    put(out, open)?;
    for element in elements.as_slice() {
        put(out, " ")?;
        put_element(alloc, out, element)?;
    }
    put(out, ")")
}

#[cycle(show_terms)]
fn put_term(alloc: Global, out: &mut String, term: &TermElement) -> Result<(), AllocError> {
    match term {
        TermElement::Literal(text, span) => put_quoted(alloc, out, text, *span),
        TermElement::Range(first, last, span) => {
            put(out, first.text())?;
            put(out, "..")?;
            put_named(alloc, out, last, *span)
        }
        TermElement::Pattern(text, span) => {
            put(out, "/")?;
            put_named(alloc, out, text, *span)
        }
        TermElement::Call(name, span) => put_named(alloc, out, name, *span),
        TermElement::Group(terms) => put_terms(alloc, out, "(", terms),
        TermElement::Choice(terms) => put_terms(alloc, out, "(|", terms),
        TermElement::Maybe(inner) => {
            put_term(alloc, out, inner.get())?;
            put(out, "?")
        }
        TermElement::Many(inner) => {
            put_term(alloc, out, inner.get())?;
            put(out, "*")
        }
        TermElement::Some1(inner) => {
            put_term(alloc, out, inner.get())?;
            put(out, "+")
        }
    }
}

#[cycle(show_terms)]
fn put_terms(
    alloc: Global,
    out: &mut String,
    open: &str,
    terms: &Items<TermElement>,
) -> Result<(), AllocError> {
    put(out, open)?;
    for term in terms.as_slice() {
        put(out, " ")?;
        put_term(alloc, out, term)?;
    }
    put(out, ")")
}

fn put_result(alloc: Global, out: &mut String, found: &RuleResult) -> Result<(), AllocError> {
    match found {
        RuleResult::Own => Ok(()),
        RuleResult::Returns(name, span) => {
            put(out, " returns ")?;
            put_named(alloc, out, name, *span)
        }
        RuleResult::Gives(primitive) => {
            put(out, " gives ")?;
            put(out, word_of(*primitive))
        }
        RuleResult::Infers(name, span) => {
            put(out, " infers ")?;
            put_named(alloc, out, name, *span)
        }
    }
}

fn put_rule(alloc: Global, out: &mut String, rule: &Rule) -> Result<(), AllocError> {
    put(out, if rule.is_entry { " entry " } else { " rule " })?;
    put(out, if rule.is_fragment { "fragment " } else { "" })?;
    put_named(alloc, out, &rule.name, rule.span)?;
    put_result(alloc, out, &rule.result)?;
    put(out, ": ")?;
    put_element(alloc, out, &rule.body)?;
    put(out, ";")
}

fn put_terminal(alloc: Global, out: &mut String, terminal: &Terminal) -> Result<(), AllocError> {
    put(
        out,
        if terminal.is_hidden {
            " hidden "
        } else {
            " terminal "
        },
    )?;
    put(
        out,
        if terminal.is_fragment {
            "fragment "
        } else {
            ""
        },
    )?;
    put_named(alloc, out, &terminal.name, terminal.span)?;
    put(out, " ")?;
    put(out, word_of(terminal.gives))?;
    put(out, ": ")?;
    put_term(alloc, out, &terminal.body)?;
    put(out, ";")
}

fn put_member(alloc: Global, out: &mut String, member: &Member) -> Result<(), AllocError> {
    put(out, " ")?;
    match member {
        Member::Named(name, span) => put_named(alloc, out, name, *span),
        Member::Refers(name, span) => {
            put(out, "@")?;
            put_named(alloc, out, name, *span)
        }
        Member::Plain(primitive) => put(out, word_of(*primitive)),
        Member::Literal(text) => {
            put(out, "'")?;
            put(out, text.text())?;
            put(out, "'")
        }
    }
}

fn put_attribute(alloc: Global, out: &mut String, attribute: &Attribute) -> Result<(), AllocError> {
    put(out, " ")?;
    put_named(alloc, out, &attribute.name, attribute.span)?;
    put(out, if attribute.optional { "?" } else { "" })?;
    put(out, if attribute.list { "[]" } else { "" })?;
    for member in attribute.members.as_slice() {
        put_member(alloc, out, member)?;
    }
    put(out, ",")
}

fn put_interface(alloc: Global, out: &mut String, interface: &Interface) -> Result<(), AllocError> {
    put(out, " interface ")?;
    put_named(alloc, out, &interface.name, interface.span)?;
    for (name, span) in interface.above.as_slice() {
        put(out, "<")?;
        put_named(alloc, out, name, *span)?;
    }
    for attribute in interface.attributes.as_slice() {
        put_attribute(alloc, out, attribute)?;
    }
    put(out, ";")
}

fn put_union(alloc: Global, out: &mut String, union_type: &UnionDef) -> Result<(), AllocError> {
    put(out, " type ")?;
    put_named(alloc, out, &union_type.name, union_type.span)?;
    for member in union_type.members.as_slice() {
        put_member(alloc, out, member)?;
    }
    put(out, ";")
}

fn put_imports(alloc: Global, out: &mut String, grammar: &Grammar) -> Result<(), AllocError> {
    put(out, grammar.name.text())?;
    for import in grammar.imports.as_slice() {
        put(out, " import ")?;
        put_named(alloc, out, &import.path, import.span)?;
    }
    Ok(())
}

fn put_grammar(alloc: Global, out: &mut String, grammar: &Grammar) -> Result<(), AllocError> {
    put_imports(alloc, out, grammar)?;
    for interface in grammar.interfaces.as_slice() {
        put_interface(alloc, out, interface)?;
    }
    for union_type in grammar.unions.as_slice() {
        put_union(alloc, out, union_type)?;
    }
    for rule in grammar.rules.as_slice() {
        put_rule(alloc, out, rule)?;
    }
    for terminal in grammar.terminals.as_slice() {
        put_terminal(alloc, out, terminal)?;
    }
    Ok(())
}

fn put_fault(alloc: Global, out: &mut String, fault: ReadFault) -> Result<(), AllocError> {
    match fault {
        ReadFault::Unexpected(span) => {
            put(out, "unexpected")?;
            put_span(alloc, out, span)
        }
        ReadFault::LeftOut(span, form) => {
            let text = format!(in alloc; "{form}")?;
            put(out, text.as_str())?;
            put_span(alloc, out, span)
        }
        ReadFault::TooDeep(span) => {
            put(out, "too deep")?;
            put_span(alloc, out, span)
        }
        ReadFault::NoMemory => put(out, "no memory"),
    }
}

// What is read of the text, as a line.
fn read_of(rt: &(impl Abort + AllocGlobal), text: &str) -> Result<String, AllocError> {
    let alloc = rt.alloc();
    let file = Name::from_text(alloc, text).expect(rt, "memory");
    assert!(rt; file.bytes().len() <= 67108864);
    let mut out = String::new(alloc);
    match read_grammar(alloc, &file) {
        Ok(grammar) => put_grammar(alloc, &mut out, &grammar)?,
        Err(fault) => put_fault(alloc, &mut out, fault)?,
    }
    Ok(out)
}

fn all_read(rt: &(impl Abort + AllocGlobal), cases: &[(&str, &str)]) -> Result<(), AllocError> {
    for (text, wanted) in cases {
        let read = read_of(rt, text)?;
        assert_eq!(rt; read.as_str(), *wanted, "{text:?}");
    }
    Ok(())
}

#[test]
fn files_and_declared_types(rt: HostRuntime) -> Result<(), Fail> {
    all_read(
        &rt,
        &[
            ("", ""),
            ("// nothing\n", ""),
            ("grammar G", "G"),
            (
                "grammar ^entry import 'a/b' import \"c\\n\";",
                "entry import a/b@22-27 import c\n@35-40",
            ),
            (
                "interface A extends B,C{x?:@D[];y:'l'|(string|(E));type:number}interface F{};",
                " interface A@10-11<B@20-21<C@22-23 x@24-25?[] @D@28-29, y@32-33 'l' string E@47-48, type@51-55 number,; interface F@73-74;",
            ),
            (
                "type T=A|@B|('x'|Date)type ^type=bigint;",
                " type T@5-6 A@7-8 @B@10-11 'x' Date; type type@27-32 bigint;",
            ),
        ],
    )?;
    Ok(())
}

#[test]
fn parser_rules(rt: HostRuntime) -> Result<(), Fail> {
    all_read(
        &rt,
        &[
            (
                "entry fragment A:'a';B returns C:x=D;E returns string:F;G infers H:I;",
                " entry fragment A@15-16: 'a'@17-20; rule B@21-22 returns C@31-32: x=D@35-36@33-36; rule E@37-38 gives string: F@54-55; rule G@56-57 infers H@65-66: I@67-68;",
            ),
            // One part is the part itself; what is marked is marked with its parentheses.
            ("A:('a');", " rule A@0-1: 'a'@3-6;"),
            ("A:('a')?;", " rule A@0-1: 'a'@3-6?@2-8;"),
            ("A:((a b))+;", " rule A@0-1: ( a@4-5 b@6-7)@4-7+@2-10;"),
            (
                "A:a(b|c d*)e|{infer T}{T.p+=current};",
                " rule A@0-1: (| ( a@2-3 (| b@4-5 ( c@6-7 d@8-9*@8-10)@6-10)@4-10 e@11-12)@2-12 ( {infer T}@13-22 {T.p+=}@22-36)@13-36)@2-36;",
            ),
            (
                "A:entry='e'x+=[B]y?=(('y')|[C:D]|[E|F])*;",
                " rule A@0-1: ( entry='e'@8-11@2-11 x+=[B]@14-17@11-17 y?=(| 'y'@22-25 [C:D]@27-32 [E:F]@33-38)@22-38@17-39*@17-40)@2-40;",
            ),
        ],
    )?;
    Ok(())
}

#[test]
fn terminals(rt: HostRuntime) -> Result<(), Fail> {
    all_read(
        &rt,
        &[
            (
                "terminal T:/a/;hidden terminal H returns Date:'b'..'c';hidden terminal fragment F:T?;",
                " terminal T@9-10 string: /a@11-14; hidden H@31-32 Date: b..c@46-54; hidden fragment F@80-81 string: T@82-83?;",
            ),
            (
                "terminal T:('a'|(b /c/)+)* 'd';",
                " terminal T@9-10 string: ( (| 'a'@12-15 ( b@17-18 /c@19-22)+)* 'd'@27-30);",
            ),
        ],
    )?;
    Ok(())
}

#[test]
fn forms_left_out(rt: HostRuntime) -> Result<(), Fail> {
    all_read(
        &rt,
        &[
            ("grammar G entry A: x=ID & y=ID;", "unordered group@24-25"),
            ("interface A &", "unordered group@12-13"),
            ("A<", "guard or parameter@1-2"),
            ("A:=>", "predicate@2-4"),
            ("=>", "predicate@0-2"),
            ("A:->", "predicate@2-4"),
            ("A->", "predicate@1-3"),
            ("A:'a';->", "unexpected@6-8"),
            ("interface A->", "unexpected@11-13"),
            ("terminal T:->", "until@11-13"),
            ("hidden->", "until@6-8"),
            ("terminal T:!", "negation@11-12"),
            ("A:!", "unexpected@2-3"),
            ("terminal T:.", "wildcard@11-12"),
            ("A:.", "unexpected@2-3"),
            ("terminal T:(?", "lookaround@12-13"),
            ("terminal T:(?=", "lookaround@12-14"),
            ("terminal T:'a'(?=", "lookaround@15-17"),
            ("A:(?", "unexpected@3-4"),
            ("fragment A*", "wildcard fragment@10-11"),
            ("A*", "wildcard fragment@1-2"),
            ("A returns B*", "unexpected@11-12"),
            ("interface A{x:B=", "property default@15-16"),
            ("interface A{x:B[ ]=", "property default@18-19"),
            ("interface A{x:B;=", "unexpected@16-17"),
            ("interface A{x:(B=", "unexpected@16-17"),
            ("type A=B=", "unexpected@8-9"),
            ("A:x=[ +", "multi-reference@6-7"),
            ("A:x=[+=", "unexpected@5-7"),
            ("interface A{x:B[+", "multi-reference@16-17"),
            ("grammar G terminal T: /a/i;", "regex flags@22-26"),
            ("/a/i", "regex flags@0-4"),
            ("A hidden", "hidden list@2-8"),
            ("entry A returns string hidden", "hidden list@23-29"),
            ("A:hidden;", "unexpected@8-9"),
            ("infix A", "infix rule@6-7"),
            ("^infix on", "infix rule@7-9"),
            ("infix hidden", "hidden list@6-12"),
            (
                "infix returns A:'a';",
                " rule infix@0-5 returns A@14-15: 'a'@16-19;",
            ),
            ("entry infix A", "unexpected@12-13"),
        ],
    )?;
    Ok(())
}

#[test]
fn where_a_file_goes_wrong(rt: HostRuntime) -> Result<(), Fail> {
    all_read(
        &rt,
        &[
            ("grammar G entry A 'a';", "unexpected@18-21"),
            ("grammar", "unexpected@7-7"),
            ("grammar G import", "unexpected@16-16"),
            ("grammar G // c", "G"),
            ("grammar G A:x", "unexpected@13-13"),
            ("A:entry B;", "unexpected@8-9"),
            ("A:x=entry;", "unexpected@4-9"),
            ("A:();", "unexpected@3-4"),
            ("A:'a'|;", "unexpected@6-7"),
            ("A:{T}?;", "unexpected@5-6"),
            ("A:'a'**;", "unexpected@6-7"),
            (
                "terminal fragment F returns string:'a';",
                "unexpected@20-27",
            ),
            ("terminal T returns A:'a';", "unexpected@19-20"),
            ("interface A{x:B[]|C}", "unexpected@17-18"),
            ("interface A{};;", "unexpected@14-15"),
            ("A:'a' '", "unexpected@6-7"),
            ("A:'a';/*", "unexpected@6-7"),
            ("€ '", "unexpected@0-3"),
            ("string:'a';", "unexpected@0-6"),
        ],
    )?;
    Ok(())
}

// The text with so many parentheses behind its front.
fn nested(
    rt: &(impl Abort + AllocGlobal),
    front: &str,
    count: u32,
    end: &str,
) -> Result<String, AllocError> {
    let mut text = String::from_str(rt.alloc(), front)?;
    for _ in 0..count {
        text.push_str("(")?;
    }
    text.push_str(end)?;
    Ok(text)
}

fn all_nested(
    rt: &(impl Abort + AllocGlobal),
    cases: &[(&str, u32, &str, &str)],
) -> Result<(), AllocError> {
    for (front, count, end, wanted) in cases {
        let text = nested(rt, front, *count, end)?;
        let read = read_of(rt, text.as_str())?;
        assert_eq!(rt; read.as_str(), *wanted, "{front:?}");
    }
    Ok(())
}

#[test]
fn sixty_four_parentheses_may_be_open(rt: HostRuntime) -> Result<(), Fail> {
    all_nested(
        &rt,
        &[
            ("grammar G entry A: ", 65, "", "too deep@83-84"),
            ("grammar G entry A: ", 64, "", "unexpected@83-83"),
            ("A:x=", 65, "", "too deep@68-69"),
            ("A:", 60, "x=((((('a'", "too deep@68-69"),
            ("A:", 60, "x=(((('a')))) ('b' ((((", "too deep@84-85"),
            ("type T=", 65, "", "too deep@71-72"),
            ("terminal T:", 65, "", "too deep@75-76"),
            ("A:", 64, "'a'", "unexpected@69-69"),
            ("A:'a'", 65, "", "too deep@69-70"),
            ("A ", 65, "", "unexpected@2-3"),
        ],
    )?;
    Ok(())
}
