// The patterns of one grammar whose terminals have every form, by texts and lengths written by hand.
ghost use Rattle.std.specs.Prelude.{◌≡◌, ◌+◌, ◌*◌, ◌≤◌, ◌∷◌, [], IfOk, OnOk, length, sum_by};
ghost use Rattle.lw_grammar.specs.Size.{size, term_size};

use lw_base::{Boxed, Items, Name, NoMemory, Span};
use lw_grammar::{Grammar, Primitive, TermElement, Terminal};
use lw_numbers::Numbers;
use lw_terminals::patterns::{Written, patterns};
use std::alloc::Global;
use std::process::Abort;
use std::test::Fail;

const NOWHERE: Span = Span { start: 0, end: 0 };

#[tactic(auto, using(crate::proofs::Sizes::sizes_of_terms))]
fn literal(alloc: Global, text: &str) -> Result<TermElement, NoMemory>
    ensures { IfOk result (λ e. term_size e ≡ 1) }
{
    Ok(TermElement::Literal(Name::from_text(alloc, text)?, NOWHERE))
}

#[tactic(auto, using(crate::proofs::Sizes::sizes_of_terms))]
fn pattern(alloc: Global, text: &str) -> Result<TermElement, NoMemory>
    ensures { IfOk result (λ e. term_size e ≡ 1) }
{
    Ok(TermElement::Pattern(Name::from_text(alloc, text)?, NOWHERE))
}

#[tactic(auto, using(crate::proofs::Sizes::sizes_of_terms))]
fn call(alloc: Global, name: &str) -> Result<TermElement, NoMemory>
    ensures { IfOk result (λ e. term_size e ≡ 1) }
{
    Ok(TermElement::Call(Name::from_text(alloc, name)?, NOWHERE))
}

#[tactic(auto, using(crate::proofs::Sizes::sizes_of_terms))]
fn range(alloc: Global, from: &str, to: &str) -> Result<TermElement, NoMemory>
    ensures { IfOk result (λ e. term_size e ≡ 1) }
{
    let from = Name::from_text(alloc, from)?;
    Ok(TermElement::Range(from, Name::from_text(alloc, to)?, NOWHERE))
}

fn pair(
    alloc: Global,
    first: TermElement,
    second: TermElement,
) -> Result<Items<TermElement>, NoMemory>
    ensures { IfOk result (λ items. items ≡ first ∷ second ∷ []) }
{
    let mut items = Items::new(alloc);
    items.push(first)?;
    items.push(second)?;
    Ok(items)
}

/// Two parts in a row.
#[tactic(auto, using(crate::proofs::Sizes::sizes_of_terms))]
fn row(alloc: Global, first: TermElement, second: TermElement) -> Result<TermElement, NoMemory>
    ensures { IfOk result (λ e. term_size e ≡ 1 + term_size first + term_size second) }
{
    Ok(TermElement::Group(pair(alloc, first, second)?))
}

/// Two alternatives.
#[tactic(auto, using(crate::proofs::Sizes::sizes_of_terms))]
fn either(alloc: Global, first: TermElement, second: TermElement) -> Result<TermElement, NoMemory>
    ensures { IfOk result (λ e. term_size e ≡ 1 + term_size first + term_size second) }
{
    Ok(TermElement::Choice(pair(alloc, first, second)?))
}

/// `('a' /b/)?` in front of `('a' | 'b')*` in front of `'c'+`
fn marked(alloc: Global) -> Result<TermElement, NoMemory>
    ensures { IfOk result (λ e. term_size e ≤ 12) }
{
    let maybe = row(alloc, literal(alloc, "a")?, pattern(alloc, "b")?)?;
    let rest = repeated(alloc)?;
    row(alloc, optional(alloc, maybe)?, rest)
}

/// `('a' | 'b')*` in front of `'c'+`
#[tactic(auto, using(crate::proofs::Sizes::sizes_of_terms))]
fn repeated(alloc: Global) -> Result<TermElement, NoMemory>
    ensures { IfOk result (λ e. term_size e ≡ 7) }
{
    let many = either(alloc, literal(alloc, "a")?, literal(alloc, "b")?)?;
    let some = TermElement::Some1(Boxed::new(alloc, literal(alloc, "c")?)?);
    row(alloc, TermElement::Many(Boxed::new(alloc, many)?), some)
}

#[tactic(auto, using(crate::proofs::Sizes::sizes_of_terms))]
fn optional(alloc: Global, element: TermElement) -> Result<TermElement, NoMemory>
    ensures { IfOk result (λ e. term_size e ≡ 1 + term_size element) }
{
    Ok(TermElement::Maybe(Boxed::new(alloc, element)?))
}

/// `'x' X | (/y/ | 'z')`
fn chosen(alloc: Global) -> Result<TermElement, NoMemory>
    ensures { IfOk result (λ e. term_size e ≤ 12) }
{
    let first = row(alloc, literal(alloc, "x")?, call(alloc, "X")?)?;
    let second = either(alloc, pattern(alloc, "y")?, literal(alloc, "z")?)?;
    either(alloc, first, second)
}

fn twice(alloc: Global, name: &str) -> Result<TermElement, NoMemory>
    ensures { IfOk result (λ e. term_size e ≤ 12) }
{
    row(alloc, call(alloc, name)?, call(alloc, name)?)
}

/// The name of each terminal, with what is to be said of its pattern. `Twice` and a number calls the one
/// with the number below twice.
const TERMINALS: [(&str, &str); 16] = [
    ("Twice24", "4294967295 bytes"),
    ("Round", "none"),
    ("Chosen", r"x(?:[\x{61}-\x{E9}])|(?:(?:y)|z)"),
    ("Marked", "(?:(?:a(?:b)))?(?:(?:(?:a|b))*(?:c)+)"),
    ("X", r"[\x{61}-\x{E9}]"),
    ("Regex", r"\sa/b\\"),
    ("Literal", r"\.\(/é"),
    ("Called", r"(?:\.\(/é)"),
    ("Backwards", "none"),
    ("Wide", "none"),
    ("Nothing", "none"),
    ("Caller", "none"),
    ("Empty", "none"),
    ("Twice23", "4261412856 bytes"),
    ("Twice2", "2024 bytes"),
    ("Twice1", "1008 bytes"),
];

fn body(alloc: Global, name: &str) -> Result<TermElement, NoMemory>
    ensures { IfOk result (λ e. term_size e ≤ 12) }
{
    match name {
        "Chosen" => chosen(alloc),
        "Marked" => marked(alloc),
        "X" => range(alloc, "a", "é"),
        "Regex" => pattern(alloc, r"\sa\/b\\"),
        "Literal" => literal(alloc, ".(/é"),
        "Called" => call(alloc, "Literal"),
        "Round" => either(alloc, literal(alloc, "a")?, call(alloc, "Round")?),
        "Backwards" => range(alloc, "b", "a"),
        "Wide" => range(alloc, "a", "bc"),
        "Nothing" => call(alloc, "Unknown"),
        "Caller" => row(alloc, call(alloc, "X")?, call(alloc, "Nothing")?),
        _ => empty(alloc),
    }
}

/// A choice without an alternative, which no grammar file can say.
#[tactic(auto, using(crate::proofs::Sizes::sizes_of_terms))]
fn empty(alloc: Global) -> Result<TermElement, NoMemory>
    ensures { IfOk result (λ e. term_size e ≡ 1) }
{
    Ok(TermElement::Choice(Items::new(alloc)))
}

/// Puts in a terminal that reads an element.
fn put(terminals: &mut Vec<Terminal>, name: Name, body: TermElement) -> Result<(), NoMemory>
    requires small { term_size body ≤ 12 }
    requires all_small { sum_by (λ t. 1 + term_size t.body) terminals.old.items ≤ 13 * length terminals.old.items }
    ensures { OnOk result (sum_by (λ t. 1 + term_size t.body) terminals.new.items ≤ 13 * length terminals.new.items) }
{
    terminals.push(Terminal {
        name,
        file: 0,
        span: NOWHERE,
        is_hidden: false,
        is_fragment: false,
        gives: Primitive::Text,
        body,
    })?;
    Ok(())
}

/// Puts in terminals of which each calls the next twice, and the last is a text of 500 bytes.
fn put_doubled(alloc: Global, terminals: &mut Vec<Terminal>) -> Result<(), NoMemory>
    requires { sum_by (λ t. 1 + term_size t.body) terminals.old.items ≤ 13 * length terminals.old.items }
    ensures { OnOk result (sum_by (λ t. 1 + term_size t.body) terminals.new.items ≤ 13 * length terminals.new.items) }
{
    for number in (1..25usize).rev() {
        put_twice(alloc, terminals, number, number - 1)?;
    }
    let mut text = String::new(alloc);
    for _ in 0..500 {
        text.push_str("x")?;
    }
    put(
        terminals,
        Name::from_text(alloc, "Twice0")?,
        literal(alloc, text.as_str())?,
    )
}

fn put_twice(
    alloc: Global,
    terminals: &mut Vec<Terminal>,
    number: usize,
    below: usize,
) -> Result<(), NoMemory>
    requires { sum_by (λ t. 1 + term_size t.body) terminals.old.items ≤ 13 * length terminals.old.items }
    ensures { OnOk result (sum_by (λ t. 1 + term_size t.body) terminals.new.items ≤ 13 * length terminals.new.items) }
{
    let called = format!(in alloc; "Twice{below}")?;
    let name = Name::from_string(format!(in alloc; "Twice{number}")?);
    put(terminals, name, twice(alloc, called.as_str())?)
}

fn terminals(alloc: Global) -> Result<Vec<Terminal>, NoMemory>
    ensures { IfOk result (λ terminals. sum_by (λ t. 1 + term_size t.body) terminals.items ≤ 13 * length terminals.items) }
{
    let mut terminals = Vec::new(alloc);
    put_doubled(alloc, &mut terminals)?;
    for (name, _) in TERMINALS {
        if !name.starts_with("Twice") {
            put(
                &mut terminals,
                Name::from_text(alloc, name)?,
                body(alloc, name)?,
            )?;
        }
    }
    Ok(terminals)
}

fn grammar(rt: &impl Abort, alloc: Global) -> Result<Grammar, NoMemory>
    ensures { IfOk result (λ g. size g ≤ 65535) }
{
    let terminals = terminals(alloc)?;
    assert!(rt; terminals.len() < 100);
    Ok(Grammar {
        name: Name::from_text(alloc, "G")?,
        files: Items::new(alloc),
        rules: Items::new(alloc),
        terminals: Items::from_vec(terminals),
        interfaces: Items::new(alloc),
        unions: Items::new(alloc),
        imports: Items::new(alloc),
    })
}

fn said(alloc: Global, written: &Written) -> Result<String, NoMemory> {
    Ok(match written {
        Written::Short(text) => format!(in alloc; "{text}")?,
        Written::Long(bytes) => format!(in alloc; "{bytes} bytes")?,
        Written::Unwritten => format!(in alloc; "none")?,
    })
}

/// What is said of each terminal, one in a line.
fn all_said(alloc: Global, g: &Grammar) -> Result<String, NoMemory>
    requires { size g.now ≤ 65535 }
{
    let numbers = Numbers::of(alloc, g)?;
    let written = patterns(alloc, g, &numbers)?;
    let mut shown = String::new(alloc);
    for (terminal, written) in g.terminals.as_slice().iter().zip(written.iter()) {
        let said = said(alloc, written)?;
        shown.push_str(format!(in alloc; "{} {said}\n", terminal.name)?.as_str())?;
    }
    Ok(shown)
}

#[test]
fn patterns_are_written_of_every_form(rt: HostRuntime) -> Result<(), Fail> {
    let alloc = rt.alloc();
    let g = grammar(&rt, alloc)?;
    let shown = all_said(alloc, &g)?;
    for (name, wanted) in TERMINALS {
        let line = format!(in alloc; "{name} {wanted}\n")?;
        assert!(rt; shown.as_str().contains(line.as_str()), "{name} in {shown}");
    }
    Ok(())
}
