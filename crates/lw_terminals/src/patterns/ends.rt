// The ends of ranges.
ghost use Rattle.std.specs.Prelude.{ℕ, ◌≡◌, ◌↔◌, ◌∷◌, ◌++◌, [], IsTrue, IfOk, MatchOption, codes, string_bytes};
ghost use Rattle.std.specs.Str.{chars};
ghost use Rattle.lw_tokens.specs.Patterns.{by_number};
ghost use Rattle.lw_terminals.specs.Readiness.{HasEnds};

use lw_base::{Name, NoMemory};
use std::alloc::Global;

/// Whether these are one character each, the first no later than the second.
pub(crate) fn has_ends(from: &Name, to: &Name) -> bool
    ensures { IsTrue result ↔ HasEnds from.now to.now }
{
    match (only_char(from), only_char(to)) {
        (Some(first), Some(last)) => first <= last,
        _ => false,
    }
}

/// The one character of the text, if that is what it is.
pub(crate) fn only_char(text: &Name) -> Option<char>
    ensures { MatchOption result ((c : ℕ) → ¬ (chars text.now ≡ c ∷ [])) (λ c. chars text.now ≡ c ∷ []) }
{
    let mut chars = text.text().chars();
    let first = chars.next()?;
    match chars.next() {
        Some(_) => None,
        None => Some(first),
    }
}

/// A class of the characters from the first to the last, both by their numbers.
pub(crate) fn class(alloc: Global, first: char, last: char) -> Result<String, NoMemory>
    ensures { IfOk result (λ text. string_bytes text ≡ codes "[" ++ by_number first ++ codes "-" ++ by_number last ++ codes "]") }
{
    Ok(format!(in alloc; r"[\x{{{:X}}}-\x{{{:X}}}]", first as u32, last as u32)?)
}
