// Why a grammar has no tables, by where a reader finds it.
ghost use Rattle.std.specs.Prelude.{◌≡◌, [], ◌∷◌, None, IfSome};
ghost use Rattle.lw_load.specs.Standing.{AreIn, Stands};
ghost use Rattle.lw_lookahead.specs.declared.fault.LookFault.{LookFault};
ghost use Rattle.lw_lang.specs.ToldLooks.{CanLookBeTold, IsConflictToldAs, IsLookToldAs};

use crate::told_term::{FilePlace, placed};
use lw_base::Name;
use lw_grammar::Grammar;
use lw_lookahead::{Conflict, LookFault};

/// A choice at which two ways cannot be told apart, as a reader finds it.
#[derive(Drop)]
pub struct ToldConflict {
    pub place: FilePlace,
    /// How many kinds were looked at.
    pub k: u8,
    /// The ways, counted from one. The first is the smaller one.
    pub first: u16,
    pub second: u16,
    /// What may come next at both: the texts of the kinds, joined by spaces, where the end is `<end>`.
    pub shared: Name,
}

/// Why a grammar has no tables, by where a reader finds it.
#[derive(Drop)]
pub enum ToldLookFault {
    /// There are too many look-ahead strings.
    TooMany,
    /// Two ways of a choice cannot be told apart.
    Conflict(ToldConflict),
}

/// Tells why a grammar, the texts of whose files are these, has no tables for `k` kinds. Names are taken out of the grammar, so that
/// this takes no memory. Nothing where there was no memory before.
pub(crate) fn told_look(
    grammar: Grammar,
    texts: &[Name],
    k: u8,
    fault: LookFault,
) -> Option<ToldLookFault>
    requires stand { Stands texts.now grammar }
    requires there { CanLookBeTold grammar texts.now fault }
    ensures told { IfSome result (IsLookToldAs grammar texts.now k fault) }
    ensures memory { result ≡ None → fault ≡ LookFault.NoMemory }
{
    match fault {
        LookFault::Conflict(conflict) => {
            Some(ToldLookFault::Conflict(told_conflict(grammar, texts, k, conflict)))
        }
        LookFault::TooMany => Some(ToldLookFault::TooMany),
        LookFault::NoMemory => None,
    }
}

/// Tells a conflict.
fn told_conflict(grammar: Grammar, texts: &[Name], k: u8, conflict: Conflict) -> ToldConflict
    requires stand { Stands texts.now grammar }
    requires there { AreIn texts.now conflict.file (conflict.span ∷ []) }
    ensures { IsConflictToldAs grammar texts.now k conflict result }
{
    let place = placed(grammar, texts, conflict.file, conflict.span);
    let Conflict {
        first,
        second,
        text,
        ..
    } = conflict;
    ToldConflict {
        place,
        k,
        first,
        second,
        shared: text,
    }
}
