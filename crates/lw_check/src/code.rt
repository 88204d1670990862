// What a diagnostic is about.
ghost use Rattle.std.specs.Prelude.{◌≡◌};
ghost use Rattle.lw_check.specs.Codes.{code_number};

/// What a diagnostic is about, in the order of the codes that are published.
#[derive(Clone, Copy)]
pub(crate) enum Code {
    /// No token stands at this character.
    UnexpectedCharacter,
    /// No sentence goes on so: a token that cannot come next, or the end of the text.
    Unexpected,
    /// A reference leads nowhere.
    Unresolved,
    /// A name stands a second time in one container.
    Duplicate,
    /// Another document exports the same.
    AlsoExported,
    /// A number is none of 64 bits.
    OutOfRange,
    /// The text is longer than a document may be.
    TooLong,
}

impl Code {
    /// The `code` of such a diagnostic (Language Server Protocol 3.17, "Diagnostic"), 1 to 7.
    pub(crate) fn number(self) -> u8
        ensures { result ≡ code_number self }
    {
        match self {
            Code::UnexpectedCharacter => 1,
            Code::Unexpected => 2,
            Code::Unresolved => 3,
            Code::Duplicate => 4,
            Code::AlsoExported => 5,
            Code::OutOfRange => 6,
            Code::TooLong => 7,
        }
    }
}
