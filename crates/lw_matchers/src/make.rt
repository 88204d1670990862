// The making of a set of tokens.
ghost use Rattle.std.specs.Prelude.{◌≡◌, ◌≢◌, ℕ, ◌+◌, ◌≤◌, ◌++◌, [], List, map, length, All, Contains, IfOk, Err, OnOk, IsSome, Some};
ghost use Rattle.lw_io.specs.Patterns.{anchored};
ghost use Rattle.lw_tokens.specs.Matching.{pattern_of, match_length};
ghost use Rattle.lw_grammar.specs.KindTexts.{quoted};
ghost use Rattle.lw_matchers.specs.Made.{form_of, IsUsable, AreUsable, AreUnlisted, IsRefusedAt, MatchesEmptyAt, CountsRefusals, KeepsRefused};

use crate::{MakeTokensFault, Terminal, TerminalSource};
use lw_base::{Name, NoMemory};
use lw_io::{MakeFault, Patterns};
use lw_matching::first_bytes_of;
use std::alloc::Global;

/// The texts by which the keywords are told, with room for so many more.
pub(crate) fn keyword_texts(
    alloc: Global,
    keywords: &[Name],
    more: usize,
) -> Result<Vec<Name>, NoMemory>
    requires { length keywords.now + more ≤ 65535 }
    ensures { IfOk result (λ texts. texts.items ≡ map quoted keywords.now) }
{
    let mut texts = Vec::with_capacity(alloc, keywords.len() + more)?;
    for keyword in keywords {
        texts.push(quoted(alloc, keyword)?)?;
    }
    Ok(texts)
}

fn quoted(alloc: Global, text: &Name) -> Result<Name, NoMemory>
    ensures { IfOk result (λ name. name ≡ quoted text.now) }
{
    Ok(Name::from_string(format!(in alloc; "'{}'", text.text())?))
}

/// The terminals with their compiled patterns, made in order. Their names are put behind the texts.
pub(crate) fn make_terminals<P: Patterns>(
    alloc: Global,
    sources: Vec<TerminalSource>,
    texts: &mut Vec<Name>,
    patterns: &mut P,
) -> Result<Vec<Terminal>, MakeTokensFault>
    ensures made { IfOk result (λ terminals. terminals.items ≡ map form_of sources.items) }
    ensures texts { OnOk result (texts.new.items ≡ texts.old.items ++ map (λ source. source.name) sources.items) }
    ensures usable { OnOk result (AreUsable sources.items) }
    ensures unlisted { OnOk result (AreUnlisted (P.listed patterns.old) sources.items) }
    ensures refused { (i : ℕ) → result ≡ Err (MakeTokensFault.Refused i)
        → IsRefusedAt (P.listed patterns.old) sources.items (P.last_refused patterns.new) i }
    ensures empty_match { (i : ℕ) → result ≡ Err (MakeTokensFault.EmptyMatch i) → MatchesEmptyAt (P.listed patterns.old) sources.items i }
    ensures count { CountsRefusals (P.count patterns.old) (P.count patterns.new) result }
    ensures last { KeepsRefused (P.last_refused patterns.old) (P.last_refused patterns.new) result }
{
    let mut terminals = Vec::with_capacity(alloc, sources.len())?;
    for source in sources {
        let place = terminals.len();
        let terminal = make_terminal(alloc, place, source.pattern, source.hidden, patterns)?;
        terminals.push(terminal)?;
        texts.push(source.name)?;
    }
    Ok(terminals)
}

// The terminal of this pattern, which is the one at this place.
fn make_terminal<P: Patterns>(
    alloc: Global,
    place: usize,
    pattern: Name,
    hidden: bool,
    patterns: &mut P,
) -> Result<Terminal, MakeTokensFault>
    ensures made { IfOk result (λ terminal. terminal ≡ record { pattern = pattern; hidden = hidden }) }
    ensures usable { OnOk result (IsUsable pattern) }
    ensures unlisted { OnOk result (¬ (Contains (P.listed patterns.old) pattern)) }
    ensures same_list { P.listed patterns.new ≡ P.listed patterns.old }
    ensures refused { (i : ℕ) → result ≡ Err (MakeTokensFault.Refused i)
        → (i ≡ place) × (P.last_refused patterns.new ≡ Some pattern) }
    ensures empty_match { (i : ℕ) → result ≡ Err (MakeTokensFault.EmptyMatch i)
        → (i ≡ place) × (match_length pattern [] ≡ Some 0) × ¬ (Contains (P.listed patterns.old) pattern) }
    ensures count { CountsRefusals (P.count patterns.old) (P.count patterns.new) result }
    ensures last { KeepsRefused (P.last_refused patterns.old) (P.last_refused patterns.new) result }
{
    let text = pattern.copy(alloc)?;
    let regex = match patterns.make(alloc, text) {
        Ok(regex) => regex,
        Err(MakeFault::Refused) => return Err(MakeTokensFault::Refused(place)),
        Err(MakeFault::NoMemory) => return Err(MakeTokensFault::NoMemory),
    };
    let first_bytes = first_bytes_of(alloc, &pattern)?;
    let terminal = Terminal::new(pattern, regex, first_bytes, hidden);
    if terminal.matches_empty(alloc)? {
        return Err(MakeTokensFault::EmptyMatch(place));
    }
    Ok(terminal)
}
