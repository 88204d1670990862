// Texts and whole numbers as JSON, written behind what a text holds.
ghost use Rattle.std.specs.Prelude.{◌≡◌, ◌++◌, decimal, string_bytes, IfOk};
ghost use Rattle.std.specs.Bool.{OnTrue};
ghost use Rattle.std.specs.Fmt.{signed_decimal};
ghost use Rattle.json.specs.Print.{escape, quoted};
ghost use Rattle.lw_rpc.specs.Readable.{ReadsBack};
ghost use Rattle.lw_rpc.specs.Values as spec;

use itoa::Buffer;
use lw_base::{Name, NoMemory};
use serde_json::Value;
use std::alloc::Global;

/// A text between quotes. One that needs no escape is copied once, as it is.
pub fn write_quoted(alloc: Global, out: &mut String, name: &Name) -> Result<(), NoMemory>
    ensures { IfOk result (λ _. string_bytes out.new ≡ string_bytes out.old ++ quoted name.now) }
{
    let text = name.text();
    if is_plain(text) {
        write_plain(out, text)
    } else {
        write_escaped(alloc, out, text)
    }
}

/// Whether no character of the text needs an escape.
fn is_plain(text: &str) -> bool
    ensures { OnTrue result (escape text.now ≡ text.now) }
{
    'bytes: for &byte in text.as_bytes() {
        if byte == b'"' || byte == b'\\' || byte < 0x20 {
            return false;
        }
    }
    true
}

fn write_plain(out: &mut String, text: &str) -> Result<(), NoMemory>
    requires { escape text.now ≡ text.now }
    ensures { IfOk result (λ _. string_bytes out.new ≡ string_bytes out.old ++ quoted text.now) }
{
    out.push_str("\"")?;
    out.push_str(text)?;
    out.push_str("\"")?;
    Ok(())
}

fn write_escaped(alloc: Global, out: &mut String, text: &str) -> Result<(), NoMemory>
    ensures { IfOk result (λ _. string_bytes out.new ≡ string_bytes out.old ++ quoted text.now) }
{
    let escaped = Value::String(String::from_str(alloc, text)?).to_string(alloc)?;
    out.push_str(escaped.as_str())?;
    Ok(())
}

/// A number below 256.
pub fn write_small(out: &mut String, number: u8) -> Result<(), NoMemory>
    ensures text { IfOk result (λ _. string_bytes out.new ≡ string_bytes out.old ++ decimal number) }
    ensures reads { IfOk result (λ _. ReadsBack (spec.natural number)) }
{
    write_natural(out, u64::from(number))
}

pub fn write_natural(out: &mut String, number: u64) -> Result<(), NoMemory>
    ensures text { IfOk result (λ _. string_bytes out.new ≡ string_bytes out.old ++ decimal number) }
    ensures reads { IfOk result (λ _. ReadsBack (spec.natural number)) }
{
    let mut digits = Buffer::new();
    out.push_str(digits.format(number))?;
    Ok(())
}

pub fn write_whole(out: &mut String, number: i64) -> Result<(), NoMemory>
    ensures text { IfOk result (λ _. string_bytes out.new ≡ string_bytes out.old ++ signed_decimal number) }
    ensures reads { IfOk result (λ _. ReadsBack (spec.whole number)) }
{
    let mut digits = Buffer::new();
    out.push_str(digits.format(number))?;
    Ok(())
}
