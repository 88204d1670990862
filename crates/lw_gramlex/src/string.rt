// The strings of a grammar file.
ghost use Rattle.std.specs.Prelude.{◌≡◌, ℕ, MatchOption};
ghost use Rattle.lw_gramlex.specs.FileTokens.{IsString};

/// How many bytes the string at the front of the text has, or None where none stands there.
pub(crate) fn string_length(rest: &str) -> Option<usize>
    ensures { MatchOption result ((n : ℕ) → ¬ IsString rest.now n) (IsString rest.now) }
{
    let (quote, after) = rest.as_bytes().split_first()?;
    if *quote != b'\'' && *quote != b'"' {
        return None;
    }
    let mut escaped = false;
    'inside: for (at, byte) in after.iter().enumerate() {
        if escaped {
            if *byte == b'\n' {
                return None;
            }
            escaped = false;
        } else if *byte == *quote {
            return Some(at + 2);
        } else {
            escaped = *byte == b'\\';
        }
    }
    None
}
