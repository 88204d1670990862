// Regular expressions without the backslashes before their slashes.
ghost use Rattle.std.specs.Prelude.{◌≡◌, ◌∷◌, [], ◌++◌, IfOk, OnOk};
ghost use Rattle.lw_tokens.specs.Patterns.{unescaped};

use lw_base::{Name, NoMemory};
use std::alloc::Global;

/// The text between the slashes of a regular expression, with each `\/` turned into `/`.
pub(crate) fn unescaped(alloc: Global, pattern: &Name) -> Result<Name, NoMemory>
    ensures { IfOk result (λ text. text ≡ unescaped pattern.now) }
{
    match Name::from_vec(unescaped_bytes(alloc, pattern.bytes())?) {
        Some(text) => Ok(text),
        None => unreachable!(),
    }
}

/// The bytes are read pair by pair from the left, where a backslash begins a pair.
fn unescaped_bytes(alloc: Global, pattern: &[u8]) -> Result<Vec<u8>, NoMemory>
    ensures { IfOk result (λ bytes. bytes.items ≡ unescaped pattern.now) }
{
    let mut bytes = Vec::new(alloc);
    let mut after_backslash = false;
    for byte in pattern {
        if after_backslash {
            push_pair(&mut bytes, *byte)?;
            after_backslash = false;
        } else if *byte == b'\\' {
            after_backslash = true;
        } else {
            bytes.push(*byte)?;
        }
    }
    if after_backslash {
        bytes.push(b'\\')?;
    }
    Ok(bytes)
}

/// Puts a pair in: a backslash and this byte, or the slash alone.
fn push_pair(bytes: &mut Vec<u8>, second: u8) -> Result<(), NoMemory>
    ensures { OnOk result (bytes.new.items ≡ bytes.old.items ++ unescaped (92 ∷ second ∷ [])) }
{
    if second != b'/' {
        bytes.push(b'\\')?;
    }
    bytes.push(second)?;
    Ok(())
}
