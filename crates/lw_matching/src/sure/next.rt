// Whether what stands next stays so.
ghost use Rattle.std.specs.Prelude.{◌≤◌, IsTrue, None};
ghost use Rattle.lw_matching.specs.Next.{NextStays};

use crate::Walker;
use crate::sure::front::{none_begun, terminals_stay, token_stays};
use lw_base::{KindId, Name};
use regex_nfa::Nfa;

/// Whether the token of this kind that stands at the start of the text, or that none does where there is no kind, stays so whatever bytes
/// follow the text. It may be so and not be known.
pub fn next_stays(
    keywords: &[Name],
    nfas: &[Nfa],
    text: &str,
    kind: Option<KindId>,
    walker: &mut Walker,
) -> bool
    ensures stays { IsTrue result → NextStays keywords.now nfas.now text.now kind }
    ensures left { walker.new ≤ walker.old }
{
    match kind {
        Some(kind) => token_stays(keywords, nfas, text, kind.0 as usize, walker),
        None => none_stays(keywords, nfas, text, walker),
    }
}

// Whether no token stands at the start of the text, whatever bytes follow: all terminals are asked.
fn none_stays(keywords: &[Name], nfas: &[Nfa], text: &str, walker: &mut Walker) -> bool
    ensures stays { IsTrue result → NextStays keywords.now nfas.now text.now None }
    ensures left { walker.new ≤ walker.old }
{
    none_begun(keywords, text) && terminals_stay(nfas, text, nfas.len(), walker)
}
