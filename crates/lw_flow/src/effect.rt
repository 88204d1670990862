// What a list of steps does, and what is known of the ways that come to a place.
ghost use Rattle.std.specs.Prelude.{◌≡◌};
ghost use Rattle.lw_flow.specs.Effects.{weight};

/// What steps do, one after the other: what the last of those of most weight does. The weight is that of
/// its variant, from none on.
#[derive(Clone, Copy, PartialEq, Eq, Hash)]
pub enum Effect {
    /// There is no step.
    Nothing,
    /// A call of what makes no node.
    Reads,
    /// An assignment.
    Fills,
    /// A call of a rule that makes nodes, of the type of this number.
    Calls(Option<u16>),
    /// An action, of the type of this number.
    Acts(Option<u16>),
}

impl Effect {
    /// How much it weighs.
    pub(crate) fn weight(self) -> u8
        ensures { result ≡ weight self }
    {
        match self {
            Effect::Nothing => 0,
            Effect::Reads => 1,
            Effect::Fills => 2,
            Effect::Calls(_) => 3,
            Effect::Acts(_) => 4,
        }
    }
}

/// What is known of the ways that come to a place.
#[derive(Clone, Copy, PartialEq, Eq, Hash)]
pub enum Mark {
    /// On one of them the steps before do this.
    Done(Effect),
    /// One of them is of a rule of the type of this number, and the steps before have neither an action
    /// nor a call of a rule that makes nodes.
    Own(u16),
    /// One of them is of a rule of the type of this number.
    Of(u16),
}
