// The regular expressions of a grammar file.
ghost use Rattle.std.specs.Prelude.{◌≡◌, ℕ, ◌≤◌, length, take_while, MatchOption};
ghost use Rattle.lw_base.specs.declared.limits.TheConstants.{LONGEST_TEXT};
ghost use Rattle.std.specs.Char.{is_ascii_lowercase};
ghost use Rattle.lw_gramlex.specs.FileTokens.{IsRegex, AreClosed};

use crate::hidden::is_line_end;

/// How many bytes the regular expression at the front of the text has, and how many of them are
/// flags, or None where none stands there.
pub(crate) fn regex_length(rest: &str) -> Option<(usize, u32)>
    requires { length rest.now ≤ LONGEST_TEXT }
    ensures { MatchOption result
        ((flags n : ℕ) → ¬ IsRegex rest.now flags n) (λ found. IsRegex rest.now found.1 found.0) }
{
    let (first, body) = rest.as_bytes().split_first()?;
    if *first != b'/' {
        return None;
    }
    let count = body_length(body)?;
    if count == 0 || body[0] == b'*' {
        return None;
    }
    let flags = flag_count(&body[count + 1..]);
    Some((count + 2 + flags, flags as u32))
}

// How many flags stand at the front.
fn flag_count(bytes: &[u8]) -> usize
    ensures { result ≡ length (take_while is_ascii_lowercase bytes.now) }
{
    bytes.iter().take_while(|c| c.is_ascii_lowercase()).count()
}

// How many bytes stand before the slash that closes the parts.
fn body_length(body: &[u8]) -> Option<usize>
    ensures { MatchOption result ((n : ℕ) → ¬ AreClosed body.now n) (AreClosed body.now) }
{
    let mut escaped = false;
    let mut in_class = false;
    'body: for (at, byte) in body.iter().enumerate() {
        if is_line_end(*byte) {
            return None;
        }
        if escaped {
            escaped = false;
        } else if !in_class && *byte == b'/' {
            return Some(at);
        } else {
            escaped = *byte == b'\\';
            in_class = in_class && *byte != b']' || *byte == b'[';
        }
    }
    None
}
