// A part of a list.
ghost use Rattle.std.specs.Prelude.{◌≡◌, ◌-◌, ◌≤◌, drop, length, take};

/// Those from one place up to another.
pub(crate) fn part<T>(items: &[T], start: usize, end: usize) -> &[T]
    requires order { start ≤ end }
    requires room { end ≤ length items.now }
    ensures { result.now ≡ take (end - start) (drop start items.now) }
{
    &items[start..end]
}
