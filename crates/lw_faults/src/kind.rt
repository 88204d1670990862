// What may be wrong with a grammar.
ghost use Rattle.std.specs.Prelude.{◌≡◌};
ghost use Rattle.lw_faults.specs.Kinds.{number_of};

/// What may be wrong with a grammar, in the order of the numbers by which faults are told.
#[derive(Clone, Copy, Debug, PartialEq, Eq)]
pub enum FaultKind {
    /// The root file has no entry rule.
    NoEntry,
    /// An entry rule stands behind another one.
    SecondEntry,
    /// The entry rule makes no node.
    EntryWithoutNode,
    /// A name is declared twice.
    Duplicate,
    /// A call names no rule and no terminal.
    UnknownRule,
    /// A word names no type.
    UnknownType,
    /// A rule comes to itself before it has read a token.
    LeftRecursion,
    /// A rule may read no token.
    ReadsNothing,
    /// What is repeated may read no token.
    RepeatsNothing,
    /// Nothing that a rule reads has an end.
    NeverEnds,
    /// An action stands behind an assignment.
    MisplacedAction,
    /// A call that gives a node stands behind an assignment or another such call.
    MisplacedCall,
    /// A data type rule calls what makes nodes.
    MixedDataType,
    /// A declared type has no such property.
    UnknownProperty,
    /// A declared property does not take what is put in.
    WrongPropertyForm,
    /// A property is a list at one place and none at another.
    MixedProperty,
    /// A rule makes nodes that are not of the type that it returns.
    NotSubtype,
    /// No rule reads a cross-reference.
    NoNameRule,
    /// A type extends or unites itself.
    CircularType,
    /// A fragment, a data type rule or a terminal calls itself.
    CircularCall,
    /// A call of what may not be called there.
    BadCall,
    /// An assignment stands where none may.
    BadAssignment,
    /// There are too many rules, terminals and actions.
    TooManyRules,
}

impl FaultKind {
    /// The number by which a fault of this kind is told, 1 to 23.
    pub fn number(self) -> u8
        ensures { result ≡ number_of self }
    {
        match self {
            FaultKind::NoEntry => 1,
            FaultKind::SecondEntry => 2,
            FaultKind::EntryWithoutNode => 3,
            FaultKind::Duplicate => 4,
            FaultKind::UnknownRule => 5,
            FaultKind::UnknownType => 6,
            FaultKind::LeftRecursion => 7,
            FaultKind::ReadsNothing => 8,
            FaultKind::RepeatsNothing => 9,
            FaultKind::NeverEnds => 10,
            FaultKind::MisplacedAction => 11,
            FaultKind::MisplacedCall => 12,
            FaultKind::MixedDataType => 13,
            FaultKind::UnknownProperty => 14,
            FaultKind::WrongPropertyForm => 15,
            FaultKind::MixedProperty => 16,
            FaultKind::NotSubtype => 17,
            FaultKind::NoNameRule => 18,
            FaultKind::CircularType => 19,
            FaultKind::CircularCall => 20,
            FaultKind::BadCall => 21,
            FaultKind::BadAssignment => 22,
            FaultKind::TooManyRules => 23,
        }
    }
}
