// The choices of a grammar, in their order.
ghost use Rattle.std.specs.Prelude.{◌≤◌, IfErr, IfOk};
ghost use Rattle.lw_grammar.specs.Kinds.{Kinds, AreKinds};
ghost use Rattle.lw_look.specs.Choices.{choice_sites};
ghost use Rattle.lw_first.specs.Sets.{IsInSet};
ghost use Rattle.lw_first.specs.Before.{IsReady};
ghost use Rattle.lw_lookahead.specs.declared.points.point.TheConstants.{MOST_STRINGS};
ghost use Rattle.lw_lookahead.specs.Points.{ArePoints, CausesNoPoints, strings_in};
ghost use Rattle.lw_lookahead.specs.Ways.{HasExactly};

use crate::points::gathered::Gathered;
use crate::points::walk::Walk;
use crate::points::{Point, PointsFault};
use lw_first::First;
use lw_first::heads::{Head, HeadSet};
use std::alloc::Global;

/// The choices of a grammar in their order, each with the heads of its ways, where these heads may follow the rules. As soon as there are
/// more heads than [`MOST_STRINGS`](crate::points::MOST_STRINGS) no more are looked for.
pub fn points(
    alloc: Global,
    first: &First<'_>,
    followers: &[HeadSet],
) -> Result<Vec<Point>, PointsFault>
    requires ready { IsReady first.now }
    ensures points { (kinds : Kinds) → AreKinds first.now.lexicon.g.now kinds →
        IfOk result (λ points. ArePoints first.now.lexicon.g.now kinds first.now.k first.now.heads.now followers.now (choice_sites first.now.lexicon.g.now) points.items) }
    ensures few { IfOk result (λ points. strings_in points.items ≤ MOST_STRINGS) }
    ensures fault { (kinds : Kinds) → AreKinds first.now.lexicon.g.now kinds →
        IfErr result (CausesNoPoints first.now.lexicon.g.now kinds first.now.k first.now.heads.now followers.now) }
{
    let mut gathered = Gathered::new(alloc);
    for (number, rule) in first.lexicon.g.rules.as_slice().iter().enumerate() {
        let walk = Walk {
            first: *first,
            file: rule.file,
        };
        walk.add_element(
            alloc,
            &rule.body,
            heads_at(followers, number),
            &mut gathered,
        )?;
    }
    Ok(gathered.points)
}

/// The heads in the set of this number, none where there is no such set.
fn heads_at(sets: &[HeadSet], number: usize) -> &[Head]
    ensures { HasExactly (IsInSet sets.now number) result.now }
{
    match sets.get(number) {
        Some(set) => set.as_slice(),
        None => &[],
    }
}
