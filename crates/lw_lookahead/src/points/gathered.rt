// The choices that were found so far, with how many heads their ways have.
ghost use Rattle.std.specs.Prelude.{◌≡◌, ◌+◌, ◌<◌, ◌≤◌, [], All, MatchOption, OnOk, length};
ghost use Rattle.std.specs.List.{sum_by};
ghost use Rattle.lw_first.specs.Sets.{AreDistinctHeads};
ghost use Rattle.lw_lookahead.specs.declared.points.point.TheConstants.{MOST_STRINGS};
ghost use Rattle.lw_lookahead.specs.Counted.{AreCountedPoints, IsPutPoint};

use crate::points::{MOST_STRINGS, Point, PointsFault};
use lw_first::heads::HeadSet;
use std::alloc::Global;

/// Choices in their order, and the number of their heads.
#[derive(Drop)]
pub(crate) struct Gathered {
    pub(crate) points: Vec<Point>,
    strings: usize,
}

impl Gathered {
    /// No choice.
    pub(crate) fn new(alloc: Global) -> Gathered
        ensures none { result.points.items ≡ [] }
        ensures counted { AreCountedPoints result }
    {
        Gathered {
            points: Vec::new(alloc),
            strings: 0,
        }
    }

    /// Puts the choice behind the others. It is there, too, where there are too many heads with it.
    pub(crate) fn put(&mut self, point: Point) -> Result<(), PointsFault>
        requires { AreCountedPoints self.old }
        ensures put { IsPutPoint point self.old.points.items self.new.points.items result }
        ensures distinct { All AreDistinctHeads point.ways.items }
        ensures counted { OnOk result (AreCountedPoints self.new) }
    {
        let strings = count_with(self.strings, point.ways.as_slice());
        if self.points.push(point).is_err() {
            return Err(PointsFault::NoMemory);
        }
        match strings {
            Some(strings) => {
                self.strings = strings;
                Ok(())
            }
            None => Err(PointsFault::TooMany),
        }
    }
}

/// How many heads there are with those of these ways too, where they are not too many. Each way is asked in any case, so that it is
/// known of each that no head stands twice.
fn count_with(mut strings: usize, ways: &[HeadSet]) -> Option<usize>
    requires { strings ≤ MOST_STRINGS }
    ensures count { MatchOption result (MOST_STRINGS < strings + sum_by length ways.now)
        (λ all. (all ≡ strings + sum_by length ways.now) × (all ≤ MOST_STRINGS)) }
    ensures distinct { All AreDistinctHeads ways.now }
{
    for way in ways {
        strings = strings.saturating_add(way.len());
    }
    (strings <= MOST_STRINGS).then_some(strings)
}
