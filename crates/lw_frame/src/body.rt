// The body of a message.
ghost use Rattle.std.specs.Prelude.{◌≡◌};

use std::marker::Model;

/// The body of a message, seen as its list of bytes.
#[derive(Debug, Drop)]
pub struct Body {
    bytes: Vec<u8>,
}

impl Model for Body {
    ghost use Rattle.std.specs.Prelude.{List, ℕ};

    ghost Value = { List ℕ };

    ghost view = { λ b. b.bytes.items };
}

impl Body {
    pub(crate) fn from_vec(bytes: Vec<u8>) -> Body
        ensures { result ≡ bytes.items }
    {
        Body { bytes }
    }

    /// The bytes of the body.
    pub fn bytes(&self) -> &[u8]
        ensures { result.now ≡ self.now }
    {
        self.bytes.as_slice()
    }
}
