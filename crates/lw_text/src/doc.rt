// A text that is changed.
ghost use Rattle.std.specs.Prelude.{◌≡◌, ◌+◌, ◌<◌, ◌≤◌, ◌↔◌, ◌⊎◌, ◌++◌, ℕ, length, take, drop, IsTrue, IfOk, IfErr, OnOk, OnErr, MatchResult, string_bytes, unwrap_or};
ghost use Rattle.std.specs.Str.{IsUtf8, IsCharBoundary};
ghost use Rattle.lw_text.specs.Changes.{AreMade, Changes, IsMade, IsRefused, IsTextOrFault};
ghost use Rattle.lw_text.specs.Offset.{IsOffset};
ghost use Rattle.lw_text.specs.Position.{IsPositionIn};

use crate::change::{Change, EditFault};
use crate::line::{line_among, line_starts};
use crate::place::{Pos, offset_in, position_in};
use crate::units::Encoding;
use lw_base::{Items, LONGEST_TEXT, Name, NoMemory};
use std::alloc::Global;
use std::marker::Model;

/// A text that knows where its lines begin, seen as its list of bytes. These are always UTF-8, and
/// never more than [`LONGEST_TEXT`].
///
/// It keeps four bytes for each line beside the text.
#[derive(Debug, Drop)]
pub struct TextDoc {
    text: Name,
    starts: Items<u32>,
}

impl Model for TextDoc {
    ghost use Rattle.std.specs.Prelude.{List, ℕ};
    ghost use Rattle.lw_text.specs.Starts.{IsIndexed};

    ghost Value = { List ℕ };

    ghost view = { λ d. d.text };

    ghost invariant = { λ d. IsIndexed d.text d.starts };
}

impl TextDoc {
    /// The text of this name, or [`EditFault::TooLong`] where it has more than [`LONGEST_TEXT`] bytes.
    ///
    /// The text is taken over as it is, and looked through once for its lines.
    pub fn new(alloc: Global, text: Name) -> Result<TextDoc, EditFault>
        ensures text { IfOk result (λ doc. doc ≡ text) }
        ensures too_long { (result ≡ Err (EditFault.TooLong (length text))) ↔ (LONGEST_TEXT < length text) }
        ensures faults { IfErr result (λ fault. (fault ≡ EditFault.TooLong (length text)) ⊎ (fault ≡ EditFault.NoMemory)) }
    {
        let length = text.bytes().len();
        if length > LONGEST_TEXT {
            return Err(EditFault::TooLong(length as u64));
        }
        TextDoc::with_lines(alloc, text)
    }

    /// The text, in memory of its own.
    pub fn text(&self, alloc: Global) -> Result<Name, NoMemory>
        ensures text { IfOk result (λ name. name ≡ self.now) }
        ensures utf8 { IsUtf8 self.now }
        ensures fits { length self.now ≤ LONGEST_TEXT }
    {
        Name::from_text(alloc, self.as_text())
    }

    /// The text, borrowed as a name.
    pub fn as_name(&self) -> &Name
        ensures text { result.now ≡ self.now }
        ensures fits { length self.now ≤ LONGEST_TEXT }
    {
        let _ = &self.starts;
        &self.text
    }

    /// The text, borrowed.
    pub fn as_text(&self) -> &str
        ensures text { result.now ≡ self.now }
        ensures utf8 { IsUtf8 self.now }
        ensures fits { length self.now ≤ LONGEST_TEXT }
    {
        self.as_name().text()
    }

    /// The length in bytes.
    pub fn len(&self) -> u32
        ensures len { result ≡ length self.now }
        ensures utf8 { IsUtf8 self.now }
        ensures fits { length self.now ≤ LONGEST_TEXT }
    {
        self.as_text().len() as u32
    }

    /// Whether the text has no bytes.
    pub fn is_empty(&self) -> bool
        ensures { IsTrue result ↔ (length self.now ≡ 0) }
    {
        self.as_text().is_empty()
    }

    /// The byte that the position means. A character past the line's end means the line's end, one inside
    /// a character where that begins, and a line past the last the text's end.
    ///
    /// The line is found by its number. The work is linear in the bytes of that line, whatever the
    /// length of the text. No memory is taken.
    pub fn offset(&self, at: Pos, enc: Encoding) -> u32
        ensures offset { IsOffset enc self.now at result }
        ensures within { result ≤ length self.now }
        ensures boundary { IsCharBoundary self.now result }
    {
        offset_in(self.text.text(), self.starts.as_slice(), at, enc) as u32
    }

    /// The position of the byte `off`. Inside a character it is where the character begins, and inside
    /// `\r\n` where the line ends.
    ///
    /// The line is found in as many steps as the number of lines has binary digits. Beside that the
    /// work is linear in the bytes of that line before the place. No memory is taken.
    pub fn position(&self, off: u32, enc: Encoding) -> Pos
        requires { off ≤ length self.now }
        ensures { IsPositionIn enc self.now off result }
    {
        let text = self.text.text();
        let line = line_among(text, self.starts.as_slice(), off as usize);
        position_in(text, off as usize, line, enc)
    }

    /// All changes in order, each in the text that the one before left, or the first fault: then, and
    /// where memory is refused, the text stays as it was.
    ///
    /// Each change costs one copy of the text that it makes, and one look through it for its lines. Only tests ask: a workspace makes a
    /// new text by `edited`.
    pub fn apply(
        &mut self,
        alloc: Global,
        changes: &[Change],
        enc: Encoding,
    ) -> Result<(), EditFault>
        ensures changed { OnOk result (Changes enc self.old changes.now (Ok self.new)) }
        ensures fault { IfErr result (λ fault. (fault ≡ EditFault.NoMemory) ⊎ Changes enc self.old changes.now (Err fault)) }
        ensures unchanged { OnErr result (self.new ≡ self.old) }
    {
        if let Some(doc) = self.changed_by_all(alloc, changes, enc)? {
            *self = doc;
        }
        Ok(())
    }

    /// The text with all changes made, as [`TextDoc::apply`] makes them, in memory of its own, or the
    /// first fault. This text stays as it is.
    ///
    /// Each change costs one copy of the text that it makes, and one look through it for its lines. With
    /// no change it costs one copy of the text.
    pub fn edited(
        &self,
        alloc: Global,
        changes: &[Change],
        enc: Encoding,
    ) -> Result<TextDoc, EditFault>
        ensures edited { IfOk result (λ doc. Changes enc self.now changes.now (Ok doc)) }
        ensures fault { IfErr result (λ fault. (fault ≡ EditFault.NoMemory) ⊎ Changes enc self.now changes.now (Err fault)) }
    {
        match self.changed_by_all(alloc, changes, enc)? {
            Some(doc) => Ok(doc),
            None => Ok(self.copy(alloc)?),
        }
    }

    /// The same text, in memory of its own.
    fn copy(&self, alloc: Global) -> Result<TextDoc, NoMemory>
        ensures { IfOk result (λ doc. doc ≡ self.now) }
    {
        let text = self.text.copy(alloc)?;
        let starts = Items::from_slice(alloc, self.starts.as_slice())?;
        Ok(TextDoc { text, starts })
    }

    /// What the changes make of the text; None where there is no change.
    fn changed_by_all(
        &self,
        alloc: Global,
        changes: &[Change],
        enc: Encoding,
    ) -> Result<Option<TextDoc>, EditFault>
        ensures made { IfOk result (λ doc. AreMade enc self.now changes.now (unwrap_or doc self.now)) }
        ensures fault { IfErr result (λ fault. (fault ≡ EditFault.NoMemory) ⊎ Changes enc self.now changes.now (Err fault)) }
    {
        let mut latest = None;
        for (number, change) in changes.iter().enumerate() {
            let text = latest.as_ref().unwrap_or(self);
            latest = Some(text.changed(alloc, change, number as u64, enc)?);
        }
        Ok(latest)
    }

    /// What the change makes of the text. `number` is its place in its list.
    fn changed(
        &self,
        alloc: Global,
        change: &Change,
        number: u64,
        enc: Encoding,
    ) -> Result<TextDoc, EditFault>
        ensures { MatchResult result (IsMade enc self.now change.now) (λ fault. (fault ≡ EditFault.NoMemory) ⊎ IsRefused enc self.now change.now number fault) }
    {
        if change.has_bad_range() {
            return Err(EditFault::BadRange(number));
        }
        let Some((start, end)) = change.range else {
            return TextDoc::from_text(alloc, change.text.text());
        };
        let from = self.offset(start, enc) as usize;
        let to = self.offset(end, enc) as usize;
        self.replaced(alloc, from, to, change.text.text())
    }

    /// The text with `new` in place of what stands from `from` to `to`.
    fn replaced(
        &self,
        alloc: Global,
        from: usize,
        to: usize,
        new: &str,
    ) -> Result<TextDoc, EditFault>
        requires from { IsCharBoundary self.now from }
        requires to { IsCharBoundary self.now to }
        ensures { IsTextOrFault (take from self.now ++ new.now ++ drop to self.now) result }
    {
        let text = self.as_text();
        let kept = from + (text.len() - to);
        let Some(len) = new.len().checked_add(kept) else {
            // No memory has so many bytes.
            return Err(EditFault::NoMemory);
        };
        if len > LONGEST_TEXT {
            return Err(EditFault::TooLong(len as u64));
        }
        let text = joined(alloc, &text[..from], new, &text[to..])?;
        TextDoc::with_lines(alloc, Name::from_string(text))
    }

    fn from_text(alloc: Global, text: &str) -> Result<TextDoc, EditFault>
        ensures text { IsTextOrFault text.now result }
        ensures too_long { LONGEST_TEXT < length text.now → result ≡ Err (EditFault.TooLong (length text.now)) }
    {
        if text.len() > LONGEST_TEXT {
            return Err(EditFault::TooLong(text.len() as u64));
        }
        TextDoc::with_lines(alloc, Name::from_text(alloc, text)?)
    }

    /// The text with its lines looked up.
    fn with_lines(alloc: Global, text: Name) -> Result<TextDoc, EditFault>
        requires { length text ≤ LONGEST_TEXT }
        ensures { MatchResult result (λ doc. doc ≡ text) (λ fault. fault ≡ EditFault.NoMemory) }
    {
        let starts = line_starts(alloc, text.text())?;
        Ok(TextDoc { text, starts })
    }
}

/// The three texts as one.
fn joined(alloc: Global, before: &str, new: &str, after: &str) -> Result<String, NoMemory>
    requires { length before.now + length new.now + length after.now ≤ LONGEST_TEXT }
    ensures { IfOk result (λ text. string_bytes text ≡ before.now ++ new.now ++ after.now) }
{
    let mut text = String::with_capacity(alloc, before.len() + new.len() + after.len())?;
    text.push_str(before)?;
    text.push_str(new)?;
    text.push_str(after)?;
    Ok(text)
}
