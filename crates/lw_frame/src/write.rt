// A message as bytes.
ghost use Rattle.std.specs.Prelude.{◌≡◌, ◌≤◌, ◌∷◌, ◌++◌, List, ℕ, Bool, length, IfOk, None};
ghost use Rattle.lw_frame.specs.Frames.{bodies_of, fault_of, frame_of, header_part_of};
ghost use Rattle.lw_frame.specs.declared.limits.TheConstants.{LONGEST_BODY};

use lw_base::{Name, NoMemory};
use std::alloc::Global;

/// The header part of a message whose body has so many bytes: `Content-Length: `, their number and two
/// line ends. Whoever writes it and then the body has written the message, as [`frame`] gives it.
pub fn header_part(alloc: Global, body_length: usize) -> Result<Name, NoMemory>
    ensures { IfOk result (λ name. name ≡ header_part_of body_length) }
{
    let text = format!(in alloc; "Content-Length: {body_length}\r\n\r\n")?;
    Ok(Name::from_string(text))
}

/// The bytes of a message with this body: its header part ([`header_part`]) and the body. A reader takes
/// a body of at most 16,777,216 bytes.
pub fn frame(alloc: Global, body: &Name) -> Result<Name, NoMemory>
    ensures bytes { IfOk result (λ name. name ≡ frame_of body.now) }
    ensures first { IfOk result (λ name. length body.now ≤ LONGEST_BODY
        → (rest : List ℕ) → bodies_of (name ++ rest) ≡ body.now ∷ bodies_of rest) }
    ensures alone { IfOk result (λ name. length body.now ≤ LONGEST_BODY
        → (closed : Bool) → fault_of name closed ≡ None) }
{
    let mut text = header_part(alloc, body.bytes().len())?.into_string();
    text.push_str(body.text())?;
    Ok(Name::from_string(text))
}
