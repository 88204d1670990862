// The ends of ranges.
ghost use Rattle.std.specs.Prelude.{ℕ, ◌≡◌, ◌↔◌, IsTrue, MatchOption, encode_utf8};
ghost use Rattle.std.specs.Char.{IsScalar};
ghost use Rattle.lw_faults.specs.BadCalls.{IsInOrder};

use lw_base::Name;

/// Whether these are one character each, the first no later than the second.
pub(crate) fn is_in_order(first: &Name, last: &Name) -> bool
    ensures { IsTrue result ↔ IsInOrder first.now last.now }
{
    match (only_char(first), only_char(last)) {
        (Some(low), Some(high)) => low <= high,
        _ => false,
    }
}

/// The one character of the text, if that is what it is.
fn only_char(text: &Name) -> Option<char>
    ensures { MatchOption result ((c : ℕ) → IsScalar c → ¬ (text.now ≡ encode_utf8 c)) (λ c. IsScalar c × (text.now ≡ encode_utf8 c)) }
{
    let mut chars = text.text().chars();
    let first = chars.next()?;
    match chars.next() {
        Some(_) => None,
        None => Some(first),
    }
}
