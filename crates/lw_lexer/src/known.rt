// What is known of the terminals' matches in one text.
ghost use Rattle.std.specs.Prelude.{◌≤◌, IfOk, length};
ghost use Rattle.lw_base.specs.declared.limits.TheConstants.{LONGEST_TEXT};
ghost use Rattle.lw_lexer.specs.Known.{AreInTurn, AreKnownIn};

use lw_base::NoMemory;
use lw_matchers::TokenSet;
use lw_matching::lengths::KnownLengths;
use regex_nfa::Nfa;
use std::alloc::Global;

/// What is known of the matches of a set's terminals in a text before it is cut, in their order, as far as there are automata: nothing yet.
pub(crate) fn known_lengths<'t>(
    alloc: Global,
    set: &'t TokenSet,
    nfas: &'t [Nfa],
    text: &'t str,
) -> Result<Vec<KnownLengths<'t>>, NoMemory>
    requires nfas { AreInTurn set.now.lexicon.terminals nfas.now }
    requires fits { length text.now ≤ LONGEST_TEXT }
    ensures { IfOk result (λ known. AreKnownIn set.now.lexicon.terminals text.now known.items) }
{
    let terminals = set.terminals();
    let count = terminals.len().min(nfas.len());
    let mut known = Vec::with_capacity(alloc, count)?;
    for i in 0..count {
        let terminal = &terminals[i];
        known.push(KnownLengths::new(
            alloc,
            terminal.pattern(),
            &nfas[i],
            terminal.first_bytes(),
            text,
        ))?;
    }
    Ok(known)
}
