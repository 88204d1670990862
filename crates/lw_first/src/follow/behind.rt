// What may stand behind the parts of a row.
ghost use Rattle.std.specs.Prelude.{◌≡◌, ◌<◌, ◌↔◌, ℕ, List, IfOk, length, reverse};
ghost use Rattle.lw_grammar.specs.Kinds.{Kinds, AreKinds};
ghost use Rattle.lw_look.specs.Sites.{Body};
ghost use Rattle.lw_first.specs.Sets.{IsAmongHeads};
ghost use Rattle.lw_first.specs.Before.{CanBefore, IsReady};
ghost use Rattle.lw_first.specs.Followed.{AreBehind};

use crate::First;
use crate::heads::{Head, HeadSet};
use lw_base::NoMemory;
use lw_grammar::Element;
use std::alloc::Global;

/// For each part of a row the heads of what is behind it, where these are behind the whole row.
pub fn behind_each(
    alloc: Global,
    first: &First<'_>,
    parts: &[Element],
    after: &[Head],
) -> Result<Vec<HeadSet>, NoMemory>
    requires { IsReady first.now }
    ensures { (kinds : Kinds) → AreKinds first.now.lexicon.g.now kinds →
        IfOk result (λ behind. AreBehind first.now.lexicon.g.now kinds first.now.k first.now.heads.now parts.now after.now behind.items) }
{
    if parts.is_empty() {
        return Ok(Vec::new(alloc));
    }
    let mut sets = from_the_last(alloc, first, parts, after)?;
    sets.reverse();
    Ok(sets)
}

/// The same from the last part to the first. There is a part.
fn from_the_last(
    alloc: Global,
    first: &First<'_>,
    parts: &[Element],
    after: &[Head],
) -> Result<Vec<HeadSet>, NoMemory>
    requires ready { IsReady first.now }
    requires some { 0 < length parts.now }
    ensures { (kinds : Kinds) → AreKinds first.now.lexicon.g.now kinds →
        IfOk result (λ behind. AreBehind first.now.lexicon.g.now kinds first.now.k first.now.heads.now parts.now after.now (reverse behind.items)) }
{
    let mut sets = Vec::with_capacity(alloc, parts.len())?;
    let mut behind = set_of(alloc, after)?;
    let mut place = parts.len() - 1;
    'parts: while place > 0 {
        let in_front = before(alloc, first, &parts[place], behind.as_slice())?;
        sets.push(behind)?;
        behind = in_front;
        place -= 1;
    }
    sets.push(behind)?;
    Ok(sets)
}

/// What may come where the part stands and one of these heads is behind it.
fn before(
    alloc: Global,
    first: &First<'_>,
    part: &Element,
    after: &[Head],
) -> Result<HeadSet, NoMemory>
    requires { IsReady first.now }
    ensures { (kinds : Kinds) → AreKinds first.now.lexicon.g.now kinds →
        IfOk result (λ set. (h : List ℕ) →
        IsAmongHeads set h ↔ CanBefore first.now.lexicon.g.now kinds first.now.k first.now.heads.now (Body part.now) after.now h) }
{
    let mut set = HeadSet::new(alloc);
    first.element(alloc, part, after, &mut set)?;
    Ok(set)
}

/// A set of these heads.
fn set_of(alloc: Global, heads: &[Head]) -> Result<HeadSet, NoMemory>
    ensures { IfOk result (λ set. (h : List ℕ) → IsAmongHeads set h ↔ IsAmongHeads heads.now h) }
{
    let mut set = HeadSet::new(alloc);
    set.insert_all(heads)?;
    Ok(set)
}
