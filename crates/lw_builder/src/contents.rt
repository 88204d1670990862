// What texts say, as values.
ghost use Rattle.std.specs.Prelude.{◌≡◌, ◌-◌, ◌≤◌, ◌↔◌, IfOk, IsTrue, EachIndex, length, take, drop, chars, encode_utf8_all, slice_index, string_bytes};
ghost use Rattle.std.specs.Int.{IsInRange};
ghost use Rattle.std.specs.Str.Parse.{IsNumeral, without_leading_sign};
ghost use Rattle.lw_gramlex.specs.Values.{word_name};
ghost use Rattle.lw_reading.specs.Grown.{Plain, as_value};
ghost use Rattle.lw_reading.specs.Values.{NumberMeans, unquoted};
ghost use Rattle.lw_builder.specs.Contents.{said_in};

use lw_base::{Name, NoMemory, Span};
use lw_gramlex::{read_escapes, word_name};
use lw_program::recipes::TextForm;
use lw_tree::Value;
use std::alloc::Global;

/// What the text says in this form.
pub(crate) fn said_in(alloc: Global, form: TextForm, text: Name) -> Result<Name, NoMemory>
    ensures { IfOk result (λ said. said ≡ said_in form text) }
{
    match form {
        TextForm::Plain => Ok(text),
        TextForm::Identifier => without_caret(alloc, text),
        TextForm::Quoted => unquoted(alloc, text),
    }
}

/// The text behind a caret. A text that does not begin with one is kept.
fn without_caret(alloc: Global, text: Name) -> Result<Name, NoMemory>
    ensures { IfOk result (λ said. said ≡ word_name text) }
{
    if !text.text().starts_with('^') {
        return Ok(text);
    }
    Name::from_text(alloc, word_name(text.text()))
}

/// What stands between the first and the last character, with its escapes read. A text of fewer than two characters is kept.
fn unquoted(alloc: Global, text: Name) -> Result<Name, NoMemory>
    ensures { IfOk result (λ said. said ≡ unquoted text) }
{
    let count = character_count(text.text());
    if count < 2 {
        return Ok(text);
    }
    let inner = characters_within(alloc, text.text(), count)?;
    read_escapes(alloc, inner.as_str())
}

fn character_count(text: &str) -> usize
    ensures { result ≡ length (chars text.now) }
{
    text.chars().count()
}

/// The characters other than the first and the last of so many.
fn characters_within(alloc: Global, text: &str, count: usize) -> Result<String, NoMemory>
    requires { 2 ≤ count }
    ensures { IfOk result (λ inner. string_bytes inner ≡ encode_utf8_all (take (count - 2) (drop 1 (chars text.now)))) }
{
    let inner = text.chars().skip(1).take(count - 2).collect(alloc)?;
    Ok(inner)
}

/// The text as a number, or as it is where it is none.
pub(crate) fn number(text: Name, span: Span) -> Value
    ensures { (x : Plain) × NumberMeans text span x × (result ≡ as_value x) }
{
    let numeral = is_numeral(text.text());
    match text.text().parse::<i64>() {
        Ok(n) => Value::Number(n, span),
        Err(_) if numeral => Value::Huge(span),
        Err(_) => Value::Raw(text, span),
    }
}

/// Whether the text is digits behind a sign or none.
fn is_numeral(text: &str) -> bool
    ensures { IsTrue result ↔ IsNumeral 10 (without_leading_sign text.now) }
{
    let digits = without_sign(text.as_bytes());
    !digits.is_empty() && are_digits(digits)
}

fn are_digits(bytes: &[u8]) -> bool
    ensures { IsTrue result ↔ EachIndex bytes.now (λ k. IsInRange 48 57 (slice_index bytes.now k)) }
{
    bytes.iter().all(|byte| byte.is_ascii_digit())
}

fn without_sign(text: &[u8]) -> &[u8]
    ensures { result.now ≡ without_leading_sign text.now }
{
    match text.first() {
        Some(b'-' | b'+') => &text[1..],
        _ => text,
    }
}
