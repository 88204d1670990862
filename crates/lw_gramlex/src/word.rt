// The words of a grammar file.
ghost use Rattle.std.specs.Prelude.{◌≡◌, ℕ, length, take_while, MatchOption};
ghost use Rattle.lw_gramlex.specs.FileTokens.{IsWord, IsPlainWord, is_word_start, is_word_part};

/// How many bytes the word at the front of the text has, or None where none stands there.
pub(crate) fn word_length(rest: &str) -> Option<usize>
    ensures { MatchOption result ((n : ℕ) → ¬ IsWord rest.now n) (IsWord rest.now) }
{
    let bytes = rest.as_bytes();
    let (first, after) = bytes.split_first()?;
    if *first == b'^' {
        Some(1 + plain_word_length(after)?)
    } else {
        plain_word_length(bytes)
    }
}

// The same for a word without `^`.
fn plain_word_length(bytes: &[u8]) -> Option<usize>
    ensures { MatchOption result ((n : ℕ) → ¬ IsPlainWord bytes.now n) (IsPlainWord bytes.now) }
{
    let (first, after) = bytes.split_first()?;
    if !is_word_start(*first) {
        return None;
    }
    Some(1 + part_count(after))
}

// How many bytes at the front may go on a word.
fn part_count(bytes: &[u8]) -> usize
    ensures { result ≡ length (take_while is_word_part bytes.now) }
{
    bytes.iter().take_while(|c| is_word_part(**c)).count()
}

fn is_word_start(c: u8) -> bool
    ensures { result ≡ is_word_start c }
{
    c.is_ascii_alphabetic() || c == b'_'
}

fn is_word_part(c: u8) -> bool
    ensures { result ≡ is_word_part c }
{
    c.is_ascii_alphanumeric() || c == b'_'
}
