// What is said of the pattern of a terminal.
ghost use Rattle.std.specs.Prelude.{◌≡◌};
ghost use Rattle.lw_terminals.specs.WrittenPatterns.{is_found};

use lw_base::Name;

/// The longest pattern that is told, in bytes.
pub const LONGEST_PATTERN: usize = 1_000;

/// The pattern of a terminal.
#[derive(Drop)]
pub enum Written {
    /// The pattern, of at most [`LONGEST_PATTERN`] bytes.
    Short(Name),
    /// How long it is, in bytes, if it is longer than that; 4,294,967,295 where that or more.
    Long(u32),
    /// The terminal has none.
    Unwritten,
}

impl Written {
    /// Whether there is a pattern.
    pub(crate) fn is_found(&self) -> bool
        ensures { result ≡ is_found self.now }
    {
        match self {
            Written::Short(_) | Written::Long(_) => true,
            Written::Unwritten => false,
        }
    }
}
