// The path that an address has, and the address of a path.
ghost use Rattle.std.specs.Prelude.{◌≡◌, IfOk, MatchOption, length};
ghost use Rattle.percent_encoding.specs.Percent.{percent_decode};
ghost use Rattle.lw_io.specs.Paths as spec;
ghost use Rattle.lw_io.specs.Written.{CanBePath, HasNoWrittenPath, IsWrittenPath};

use lw_base::{Name, NoMemory};
use percent_encoding::{AsciiSet, NON_ALPHANUMERIC, ascii_set, percent_decode, percent_encode};
use std::alloc::Global;

/// The ASCII bytes that are escaped in the address of a path: all but letters, digits and `/`, `-`, `.`, `_` and `~`. Bytes
/// outside ASCII are always escaped.
pub const ESCAPED: AsciiSet = ascii_set!(
    NON_ALPHANUMERIC
        .remove(b'/')
        .remove(b'-')
        .remove(b'.')
        .remove(b'_')
        .remove(b'~')
);

/// The path that the address has, or None where it has none. It takes time in proportion to the bytes of the address.
pub fn path_of(alloc: Global, address: &Name) -> Result<Option<Name>, NoMemory>
    ensures { IfOk result (λ found. MatchOption found (spec.HasNoPath address.now) (spec.IsPathOf address.now)) }
{
    match written_path(address.text()) {
        Some(written) => decoded(alloc, written),
        None => Ok(None),
    }
}

// The path as the address writes it: from the slash behind `file://` on, before a query or a fragment.
fn written_path(address: &str) -> Option<&[u8]>
    ensures { MatchOption result (HasNoWrittenPath address.now) (λ written. IsWrittenPath address.now written.now) }
{
    let behind = address.strip_prefix("file://")?;
    if behind.starts_with('/') {
        Some(before_query(behind.as_bytes()))
    } else {
        None
    }
}

// What stands before a query or a fragment.
fn before_query(bytes: &[u8]) -> &[u8]
    ensures { result.now ≡ spec.before_query bytes.now }
{
    let length = path_length(bytes);
    &bytes[..length]
}

// How many bytes stand before a query or a fragment.
fn path_length(bytes: &[u8]) -> usize
    ensures { result ≡ length (spec.before_query bytes.now) }
{
    bytes.iter().take_while(|byte| !ends_path(**byte)).count()
}

// Whether a query or a fragment begins with this byte.
fn ends_path(byte: u8) -> bool
    ensures { result ≡ spec.ends_path byte }
{
    byte == b'?' || byte == b'#'
}

// What is written with its escapes read, where that is UTF-8 and has no byte 0.
fn decoded(alloc: Global, written: &[u8]) -> Result<Option<Name>, NoMemory>
    ensures { IfOk result (λ found. MatchOption found (¬ CanBePath (percent_decode written.now)) (λ path. (path ≡ percent_decode written.now) × CanBePath path)) }
{
    let mut path = Vec::with_capacity(alloc, written.len())?;
    percent_decode(written).append_to(&mut path)?;
    if path.contains(&0) {
        return Ok(None);
    }
    Ok(Name::from_vec(path))
}

/// The address of the file at a path that begins with a slash. It takes time in proportion to the bytes of the path.
pub fn address_of(alloc: Global, path: &Name) -> Result<Name, NoMemory>
    ensures { IfOk result (λ address. address ≡ spec.address_of path.now) }
{
    let mut address = String::from_str(alloc, "file://")?;
    percent_encode(path.bytes(), ESCAPED).append_to(&mut address)?;
    Ok(Name::from_string(address))
}
