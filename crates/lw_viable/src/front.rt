// One reading by its lists.
use crate::chains::Link;

/// One reading: the list of its marks, the latest first, and that of the places that are still to be done.
#[derive(Clone, Copy, Debug)]
pub(crate) struct Front {
    pub(crate) marks: Link,
    pub(crate) rest: Link,
}

impl Front {
    /// No marks, and nothing to be done.
    pub(crate) const EMPTY: Front = Front {
        marks: Link(0),
        rest: Link(0),
    };
}
