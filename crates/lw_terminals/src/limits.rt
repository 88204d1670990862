// Which kinds a language may have.
ghost use Rattle.std.specs.Prelude.{◌↔◌, IsTrue, IfErr, MatchOption, OnOk};
ghost use Rattle.lw_terminals.specs.KindFaults.{IsKindFault};
ghost use Rattle.lw_terminals.specs.Limits.{AreNotBlank, IsBlank, IsFirstBlank};
ghost use Rattle.lw_terminals.specs.TokenSets.{HasSoundKinds};

use crate::fault::{MOST_KINDS, MOST_TERMINALS, TermFault};
use lw_base::Name;
use lw_kinds::{FirstUse, KindTable};

/// Whether a language may have these kinds. Their numbers are looked at first, then the keywords, in order.
#[tactic(auto, using(crate::proofs::Counts::too_many_kinds, crate::proofs::Counts::too_many_terminals))]
pub(crate) fn check_kinds(kinds: &KindTable) -> Result<(), TermFault>
    ensures sound { OnOk result (HasSoundKinds kinds.now) }
    ensures fault { IfErr result (IsKindFault kinds.now) }
{
    let terminals = kinds.terminal_count();
    let all = kinds.keyword_count() + terminals;
    if all > MOST_KINDS {
        return Err(TermFault::TooManyKinds(all as u32));
    }
    if terminals > MOST_TERMINALS {
        return Err(TermFault::TooManyKinds(terminals as u32));
    }
    match first_blank(kinds) {
        Some(place) => Err(TermFault::KeywordBlank(place.file, place.span)),
        None => Ok(()),
    }
}

/// Where the first keyword that is blank is first used.
fn first_blank(kinds: &KindTable) -> Option<FirstUse>
    ensures { MatchOption result (AreNotBlank kinds.now.keywords) (IsFirstBlank kinds.now) }
{
    for k in 0..kinds.keyword_count() {
        if is_blank(kinds.keyword_at(k)) {
            return Some(kinds.first_use(k));
        }
    }
    None
}

/// Whether a text is empty or begins with white space.
fn is_blank(text: &Name) -> bool
    ensures { IsTrue result ↔ IsBlank text.now }
{
    match text.text().chars().next() {
        Some(c) => c.is_whitespace(),
        None => true,
    }
}
