// What the bytes of a file are answered as.
ghost use Rattle.std.specs.Prelude.{◌≢◌, Some};
ghost use Rattle.lw_io.specs.Store.{FitsFile, IsInLimit};

use crate::Found;
use lw_base::{LONGEST_TEXT, Name};

/// The answer for a file of these bytes, which are taken over as they are. It is no fault.
pub(crate) fn content(bytes: Vec<u8>) -> Found
    ensures fits { FitsFile (Some bytes.items) result }
    ensures limit { IsInLimit result }
    ensures no_fault { result ≢ Found.Failed }
{
    if bytes.len() > LONGEST_TEXT {
        return Found::TooLong;
    }
    match String::from_utf8(bytes) {
        Ok(text) => Found::Text(Name::from_string(text)),
        Err(_) => Found::NotUtf8,
    }
}
