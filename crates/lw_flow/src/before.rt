// What may come before a leaf.

/// What may come before a leaf of a rule's body, on the ways through all rules that come to it.
#[derive(Drop)]
pub struct Before {
    /// Nothing at all.
    pub first: bool,
    /// Some step.
    pub behind: bool,
    /// An assignment, an action or a call of a rule that makes nodes.
    pub filled: bool,
    /// The numbers of the types that may be current there, ascending.
    pub current: Vec<u16>,
    /// The numbers of the types of the rules on whose ways it stands, ascending.
    pub of: Vec<u16>,
}
