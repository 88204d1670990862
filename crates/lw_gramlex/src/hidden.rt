// What is passed over between the tokens of a grammar file: white space and comments.
ghost use Rattle.std.specs.Prelude.{◌≡◌, ℕ, List, length, not, take_while, MatchOption};
ghost use Rattle.lw_gramlex.specs.FileTokens.{IsHidden, is_line_end};

/// How many bytes at the front of the text are passed over at once, or None where a token stands.
pub(crate) fn hidden_length(rest: &str) -> Option<usize>
    ensures { MatchOption result ((n : ℕ) → ¬ IsHidden rest.now n) (IsHidden rest.now) }
{
    let first = rest.chars().next()?;
    if first.is_whitespace() {
        return Some(first.len_utf8());
    }
    if let Some(after) = rest.strip_prefix("//") {
        return Some(2 + line_length(after.as_bytes()));
    }
    let after = rest.strip_prefix("/*")?;
    Some(after.find("*/")? + 4)
}

// How many bytes stand before the end of the line.
fn line_length(bytes: &[u8]) -> usize
    ensures { result ≡ length (take_while (λ c. not (is_line_end c)) bytes.now) }
{
    bytes.iter().take_while(|c| !is_line_end(**c)).count()
}

/// Whether a byte ends a line.
pub(crate) fn is_line_end(c: u8) -> bool
    ensures { result ≡ is_line_end c }
{
    c == b'\n' || c == b'\r'
}
