// What a run does that its row does not say.
use crate::ran::Ran;
use crate::row::Row;
use crate::text::{Text, bytes_of};
use lw_base::NoMemory;
use std::alloc::Global;

/// How many bytes of a text are shown.
const MOST_SHOWN: usize = 300;

/// The first thing that differs, with what was wanted and what was found.
pub fn difference(alloc: Global, row: &Row, ran: &Ran) -> Result<Option<String>, NoMemory> {
    if row.status != ran.status {
        let wanted = row.status;
        let found = ran.status;
        let notes = shown(alloc, ran.notes.as_slice(), 0)?;
        return Ok(Some(format!(in alloc; "status: wanted {wanted}, found {found}, with {notes}")?));
    }
    if let Some(told) = text_difference(alloc, "out", &row.out, ran.out.as_slice())? {
        return Ok(Some(told));
    }
    if let Some(told) = text_difference(alloc, "note", &row.note, ran.notes.as_slice())? {
        return Ok(Some(told));
    }
    what_stays(alloc, row, ran)
}

/// What differs in what stays in the source and on the desk, where the row says it.
fn what_stays(alloc: Global, row: &Row, ran: &Ran) -> Result<Option<String>, NoMemory> {
    if row.left.is_some() {
        if let Some(told) = text_difference(alloc, "left", &row.left, ran.left.as_slice())? {
            return Ok(Some(told));
        }
    }
    match row.serving {
        Some(wanted) if wanted != ran.is_serving => Ok(Some(format!(in alloc;
            "serving: wanted {wanted}"
        )?)),
        _ => Ok(None),
    }
}

/// How two texts differ, if they do.
fn text_difference(
    alloc: Global,
    what: &str,
    wanted: &Option<Text>,
    found: &[u8],
) -> Result<Option<String>, NoMemory> {
    let wanted = bytes_of(alloc, wanted)?;
    if wanted.as_slice() == found {
        return Ok(None);
    }
    let at = first_difference(wanted.as_slice(), found);
    let wanted = shown(alloc, wanted.as_slice(), at)?;
    let found = shown(alloc, found, at)?;
    Ok(Some(format!(in alloc; "{what} from byte {at}: wanted {wanted}, found {found}")?))
}

/// How many bytes of a text the other one has at its front, too.
fn first_difference(text: &[u8], other: &[u8]) -> usize {
    'bytes: for (at, byte) in text.iter().enumerate() {
        if other.get(at) != Some(byte) {
            return at;
        }
    }
    text.len()
}

/// Some bytes of a text from this one on, in quotes and with escapes.
fn shown(alloc: Global, bytes: &[u8], from: usize) -> Result<String, NoMemory> {
    let rest = &bytes[from.min(bytes.len())..];
    let text = String::from_utf8_lossy(alloc, &rest[..rest.len().min(MOST_SHOWN)])?;
    Ok(format!(in alloc; "{text:?}")?)
}
