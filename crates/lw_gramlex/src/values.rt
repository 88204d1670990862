// What the tokens of a grammar file say.
ghost use Rattle.std.specs.Prelude.{◌≡◌, length, IfOk};
ghost use Rattle.lw_gramlex.specs.FileTokens.{IsString, IsRegex};
ghost use Rattle.lw_gramlex.specs.Places.{IsPlace};
ghost use Rattle.lw_gramlex.specs.Values.{part_of, word_name, is_reserved, escape, string_value, with_escapes_read, regex_text};

use crate::token::FileToken;
use lw_base::{Name, NoMemory};
use std::alloc::Global;

impl FileToken {
    /// The text of the token, in the file that it was cut from.
    pub fn text<'t>(&self, file: &'t Name) -> &'t str
        requires { IsPlace file.now self.now.span }
        ensures { result.now ≡ part_of file.now self.now.span }
    {
        let start = self.span.start as usize;
        let end = self.span.end as usize;
        &file.text()[start..end]
    }
}

/// The name that a word's token means: what stands behind the `^`, where there is one.
pub fn word_name(token: &str) -> &str
    ensures { result.now ≡ word_name token.now }
{
    match token.strip_prefix('^') {
        Some(name) => name,
        None => token,
    }
}

/// Whether a word's token is a reserved word. One that is written with `^` is not.
pub fn is_reserved(token: &str) -> bool
    ensures { result ≡ is_reserved token.now }
{
    matches!(
        token,
        "entry"
            | "extends"
            | "fragment"
            | "grammar"
            | "hidden"
            | "import"
            | "infer"
            | "infers"
            | "interface"
            | "returns"
            | "terminal"
            | "type"
            | "current"
            | "string"
            | "number"
            | "boolean"
            | "bigint"
            | "Date"
    )
}

/// The value of a string's token: what stands between its quotes, with its escapes read. The one
/// error is want of memory.
pub fn string_value(alloc: Global, token: &str) -> Result<Name, NoMemory>
    requires { IsString token.now (length token.now) }
    ensures { IfOk result (λ name. name ≡ string_value token.now) }
{
    read_escapes(alloc, &token[1..token.len() - 1])
}

/// The text with its escapes read: a backslash and a character mean one character, and a backslash at
/// the end means itself. The one error is want of memory.
pub fn read_escapes(alloc: Global, text: &str) -> Result<Name, NoMemory>
    ensures { IfOk result (λ name. name ≡ with_escapes_read text.now) }
{
    let mut value = String::new(alloc);
    let mut escaped = false;
    'reading: for c in text.chars() {
        if escaped {
            value.push(escape_char(c))?;
            escaped = false;
        } else if c == '\\' {
            escaped = true;
        } else {
            value.push(c)?;
        }
    }
    if escaped {
        value.push('\\')?;
    }
    Name::from_text(alloc, value.as_str())
}

// The character that a backslash and this one mean.
fn escape_char(c: char) -> char
    ensures { result ≡ escape c }
{
    match c {
        'b' => '\u{8}',
        'f' => '\u{c}',
        'n' => '\n',
        'r' => '\r',
        't' => '\t',
        'v' => '\u{b}',
        '0' => '\0',
        _ => c,
    }
}

/// What stands between the slashes of a regular expression's token with so many flags.
pub fn regex_text(token: &str, flags: u32) -> &str
    requires { IsRegex token.now flags (length token.now) }
    ensures { result.now ≡ regex_text flags token.now }
{
    &token[1..token.len() - 1 - flags as usize]
}
