// The word that is being typed.
ghost use Rattle.std.specs.Prelude.{◌≡◌, ◌≤◌, ◌||◌, length, slice_range, drop, take, IsCharBoundary, nat_eq};
ghost use Rattle.lw_gramlex.specs.FileTokens.{is_word_part};
ghost use Rattle.lw_places.specs.Words.{IsTypedAt};

/// Where the word begins that ends at this byte offset: the longest run of ASCII letters, digits and underscores.
pub(crate) fn word_start(text: &str, off: usize) -> usize
    requires { IsCharBoundary text.now off }
    ensures typed { IsTypedAt text.now off (take result text.now) (slice_range text.now result off) (drop off text.now) }
    ensures before { result ≤ off }
    ensures boundary { IsCharBoundary text.now result }
{
    let bytes = text.as_bytes();
    let mut start = off;
    'word: while start > 0 && is_word_part(bytes[start - 1]) {
        start -= 1;
    }
    start
}

fn is_word_part(byte: u8) -> bool
    ensures { result ≡ is_word_part byte }
{
    byte.is_ascii_alphanumeric() || byte == b'_'
}
