// Texts in which spans are replaced.
ghost use Rattle.std.specs.Prelude.{◌≡◌, ◌≤◌, ◌<◌, ◌+◌, ◌++◌, All, IfOk, MatchBool, MatchOption, length};
ghost use Rattle.lw_base.specs.declared.limits.TheConstants.{LONGEST_DOCUMENT};
ghost use Rattle.lw_reading.specs.Within.{IsInText};
ghost use Rattle.lw_places.specs.Replacing.{replaced as replaced_text};
ghost use Rattle.lw_rename.specs.Adding.{IsAdded};

use lw_base::{LONGEST_DOCUMENT, NoMemory, Span};
use std::alloc::Global;

/// Adds a part to a text, or answers that it would be longer than a document may be.
fn add(out: &mut Vec<u8>, part: &[u8]) -> Result<bool, NoMemory>
    requires { length out.old.items ≤ LONGEST_DOCUMENT }
    ensures { IfOk result (IsAdded out.old.items part.now out.new.items) }
{
    if LONGEST_DOCUMENT - out.len() < part.len() {
        return Ok(false);
    }
    out.extend_from_slice(part)?;
    Ok(true)
}

/// Adds what stands before a span, and what stands for it.
fn add_both(out: &mut Vec<u8>, before: &[u8], new: &[u8]) -> Result<bool, NoMemory>
    requires { length out.old.items ≤ LONGEST_DOCUMENT }
    ensures { IfOk result (IsAdded out.old.items (before.now ++ new.now) out.new.items) }
{
    if !add(out, before)? {
        return Ok(false);
    }
    add(out, new)
}

/// A text with these spans of it replaced, or None where it would be longer than a document may be.
pub(crate) fn replaced(
    alloc: Global,
    text: &[u8],
    spans: &[Span],
    new: &[u8],
) -> Result<Option<Vec<u8>>, NoMemory>
    requires { All (IsInText text.now) spans.now }
    ensures { IfOk result (λ found. MatchOption found (LONGEST_DOCUMENT < length (replaced_text new.now text.now spans.now))
        (λ bytes. bytes.items ≡ replaced_text new.now text.now spans.now)) }
{
    let mut out = Vec::new(alloc);
    let mut at = 0;
    'replacing: for span in spans {
        let start = span.start as usize;
        if start >= at {
            if !add_both(&mut out, &text[at..start], new)? {
                return Ok(None);
            }
            at = span.end as usize;
        }
    }
    if !add(&mut out, &text[at..])? {
        return Ok(None);
    }
    Ok(Some(out))
}
