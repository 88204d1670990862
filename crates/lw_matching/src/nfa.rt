// The NFAs of terminals' patterns.
ghost use Rattle.std.specs.Prelude.{◌≡◌, List, ℕ, IfOk, IfSome, Ok, None, Any, map};
ghost use Rattle.regex_hir.specs.Meaning.{meaning};
ghost use Rattle.regex_compile.specs.Implements.{Implements};
ghost use Rattle.lw_io.specs.Patterns.{anchored, RegexRefuses};
ghost use Rattle.lw_tokens.specs.Lexicon.{TerminalForm};
ghost use Rattle.lw_matching.specs.Nfas.{IsNfaOf, AreNfas};

use lw_base::{Name, NoMemory};
use regex_compile::{Error, compile};
use regex_hir::Hir;
use regex_nfa::Nfa;
use regex_syntax::{Config, ErrorKind, parse};
use std::alloc::Global;

/// How many bytes the tables of an NFA may take, as in `regex`.
const SIZE_LIMIT: usize = 10 * 1024 * 1024;

/// The NFA of each of these patterns, in order, or None where one of them has none.
pub fn nfas_of(alloc: Global, patterns: &[Name]) -> Result<Option<Vec<Nfa>>, NoMemory>
    ensures made { IfOk result (λ found. IfSome found (λ nfas. (terminals : List TerminalForm) →
        map (λ form. form.pattern) terminals ≡ patterns.now → AreNfas terminals nfas.items)) }
    ensures none { result ≡ Ok None → Any (λ pattern. RegexRefuses (anchored pattern)) patterns.now }
{
    let mut nfas = Vec::with_capacity(alloc, patterns.len())?;
    for pattern in patterns {
        let Some(nfa) = nfa_of(alloc, pattern)? else {
            return Ok(None);
        };
        nfas.push(nfa)?;
    }
    Ok(Some(nfas))
}

/// The NFA of a terminal's pattern, or None where it has none: its text is no pattern, or one that is too large.
pub fn nfa_of(alloc: Global, pattern: &Name) -> Result<Option<Nfa>, NoMemory>
    ensures made { IfOk result (λ found. IfSome found (IsNfaOf pattern.now)) }
    ensures none { result ≡ Ok None → RegexRefuses (anchored pattern.now) }
{
    let source = format!(in alloc; "\\A(?:{pattern})")?;
    let config = Config::default();
    match parse(alloc, source.as_str(), &config) {
        Ok(parsed) => compiled(alloc, &parsed.hir, parsed.names.len()),
        Err(error) => match error.kind {
            ErrorKind::OutOfMemory => Err(NoMemory),
            _ => Ok(None),
        },
    }
}

// The NFA of a tree with so many groups, or None where it would be too large.
fn compiled(alloc: Global, tree: &Hir, groups: usize) -> Result<Option<Nfa>, NoMemory>
    ensures { IfOk result (λ found. IfSome found (λ nfa. Implements nfa (meaning tree.now))) }
{
    let Ok(groups) = u32::try_from(groups) else {
        return Ok(None);
    };
    match compile(alloc, tree, groups, SIZE_LIMIT) {
        Ok(nfa) => Ok(Some(nfa)),
        Err(Error::OutOfMemory) => Err(NoMemory),
        Err(_) => Ok(None),
    }
}
