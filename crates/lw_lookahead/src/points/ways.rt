// What may come next at the ways of one choice.
ghost use Rattle.std.specs.Prelude.{IfOk, map};
ghost use Rattle.lw_grammar.specs.Kinds.{Kinds, AreKinds};
ghost use Rattle.lw_look.specs.Sites.{Body, Value};
ghost use Rattle.lw_first.specs.Before.{CanBefore, ManyCanBefore, IsReady};
ghost use Rattle.lw_lookahead.specs.Ways.{HasExactly, AreWaysInto, AreTwoWays};

use lw_base::NoMemory;
use lw_first::First;
use lw_first::heads::{Head, HeadSet};
use lw_grammar::{Element, Value0};
use std::alloc::Global;

/// Of each alternative what may come, where these heads are behind the choice.
pub(crate) fn alternatives(
    alloc: Global,
    first: &First<'_>,
    parts: &[Element],
    after: &[Head],
) -> Result<Vec<HeadSet>, NoMemory>
    requires { IsReady first.now }
    ensures { (kinds : Kinds) → AreKinds first.now.lexicon.g.now kinds →
        IfOk result (λ ways. AreWaysInto first.now.lexicon.g.now kinds first.now.k first.now.heads.now (map Body parts.now) after.now ways.items) }
{
    let mut ways = Vec::new(alloc);
    for part in parts {
        ways.push(element_heads(alloc, first, part, after)?)?;
    }
    Ok(ways)
}

/// The same of alternatives of a value that is assigned.
pub(crate) fn value_alternatives(
    alloc: Global,
    first: &First<'_>,
    values: &[Value0],
    after: &[Head],
) -> Result<Vec<HeadSet>, NoMemory>
    requires { IsReady first.now }
    ensures { (kinds : Kinds) → AreKinds first.now.lexicon.g.now kinds →
        IfOk result (λ ways. AreWaysInto first.now.lexicon.g.now kinds first.now.k first.now.heads.now (map Value values.now) after.now ways.items) }
{
    let mut ways = Vec::new(alloc);
    for value in values {
        ways.push(value_heads(alloc, first, value, after)?)?;
    }
    Ok(ways)
}

/// Of a part that may be read or passed over: what may come where it is read and some heads are behind it, and what is
/// behind the choice.
pub(crate) fn two_ways(
    alloc: Global,
    first: &First<'_>,
    part: &Element,
    before: &[Head],
    after: &[Head],
) -> Result<Vec<HeadSet>, NoMemory>
    requires { IsReady first.now }
    ensures { (kinds : Kinds) → AreKinds first.now.lexicon.g.now kinds →
        IfOk result (λ ways. AreTwoWays first.now.lexicon.g.now kinds first.now.k first.now.heads.now part.now before.now after.now ways.items) }
{
    let read = element_heads(alloc, first, part, before)?;
    let mut passed = HeadSet::new(alloc);
    passed.insert_all(after)?;
    Ok(Vec::from_array(alloc, [read, passed])?)
}

/// What may come where the part is read once more or no more, any number of times, and these heads are behind it then.
pub(crate) fn repeated_heads(
    alloc: Global,
    first: &First<'_>,
    part: &Element,
    after: &[Head],
) -> Result<HeadSet, NoMemory>
    requires { IsReady first.now }
    ensures { (kinds : Kinds) → AreKinds first.now.lexicon.g.now kinds →
        IfOk result (HasExactly (ManyCanBefore first.now.lexicon.g.now kinds first.now.k first.now.heads.now part.now after.now)) }
{
    let mut heads = HeadSet::new(alloc);
    first.repeated(alloc, part, after, &mut heads)?;
    Ok(heads)
}

fn element_heads(
    alloc: Global,
    first: &First<'_>,
    element: &Element,
    after: &[Head],
) -> Result<HeadSet, NoMemory>
    requires { IsReady first.now }
    ensures { (kinds : Kinds) → AreKinds first.now.lexicon.g.now kinds →
        IfOk result (HasExactly (CanBefore first.now.lexicon.g.now kinds first.now.k first.now.heads.now (Body element.now) after.now)) }
{
    let mut heads = HeadSet::new(alloc);
    first.element(alloc, element, after, &mut heads)?;
    Ok(heads)
}

fn value_heads(
    alloc: Global,
    first: &First<'_>,
    value: &Value0,
    after: &[Head],
) -> Result<HeadSet, NoMemory>
    requires { IsReady first.now }
    ensures { (kinds : Kinds) → AreKinds first.now.lexicon.g.now kinds →
        IfOk result (HasExactly (CanBefore first.now.lexicon.g.now kinds first.now.k first.now.heads.now (Value value.now) after.now)) }
{
    let mut heads = HeadSet::new(alloc);
    first.value(alloc, value, after, &mut heads)?;
    Ok(heads)
}
