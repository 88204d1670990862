// Where the message that is being read stands.
ghost use Rattle.std.specs.Prelude.{◌≡◌, ◌≤◌, ◌<◌, ◌+◌, ◌^◌, [], length, drop};
ghost use Rattle.lw_frame.specs.Field.{field_of};
ghost use Rattle.lw_frame.specs.declared.limits.TheConstants.{LONGEST_SESSION};
ghost use Rattle.lw_frame.specs.Stage.{IsAt, IsGrown, IsHeader, stage_after, stage_behind, stage_within};

use crate::field::{Field, field_in};
use crate::{FrameFault, LONGEST_BODY, LONGEST_HEADER_PART};

/// How far a message has come.
#[derive(Clone, Copy)]
pub(crate) enum Stage {
    /// In the header part. Its current line begins `line` bytes from its start, and `given` is the length that
    /// a line before gave.
    Header { line: usize, given: Option<u64> },
    /// In the body, of which so many bytes are missing, at least one.
    Content { missing: u64 },
    /// At the end of the body.
    Whole,
    /// No further body comes.
    Failed { fault: FrameFault },
}

/// Behind a header part that has ended.
fn after_header(start: u64, given: Option<u64>) -> Stage
    ensures { result ≡ stage_behind start given }
{
    match given {
        None => Stage::Failed {
            fault: FrameFault::NoLength(start),
        },
        Some(length) => {
            if length > LONGEST_BODY {
                Stage::Failed {
                    fault: FrameFault::TooLong(length),
                }
            } else if length == 0 {
                Stage::Whole
            } else {
                Stage::Content { missing: length }
            }
        }
    }
}

/// In a header part of `size` bytes that has not ended.
fn in_header(start: u64, size: usize, line: usize, given: Option<u64>) -> Stage
    ensures { result ≡ stage_within start size line given }
{
    if size == LONGEST_HEADER_PART {
        Stage::Failed {
            fault: FrameFault::BadHeader(start),
        }
    } else {
        Stage::Header { line, given }
    }
}

/// Behind a line that is not empty, where a line before gave the length `given`.
fn after_line(start: u64, size: usize, line: usize, text: &[u8], given: Option<u64>) -> Stage
    requires { start + line < 2 ^ 64 }
    ensures { result ≡ stage_after start size line (field_of text.now) given }
{
    match (field_in(text), given) {
        (Field::Other, given) => in_header(start, size, size, given),
        (Field::Length(length), None) => in_header(start, size, size, Some(length)),
        _ => Stage::Failed {
            fault: FrameFault::BadHeader(start + line as u64),
        },
    }
}

/// The stage of a header part that begins at offset `start` of the stream and has grown to these
/// bytes. Its current line begins at `line`, and `given` is the length that a line before gave.
pub(crate) fn stage_of(start: u64, header: &[u8], line: usize, given: Option<u64>) -> Stage
    requires header { IsHeader header.now line given }
    requires grown { IsGrown (drop line header.now) }
    requires limit { length header.now ≤ LONGEST_HEADER_PART }
    requires start { start ≤ LONGEST_SESSION }
    ensures { IsAt result start header.now [] }
{
    match header[line..].strip_suffix(b"\r\n") {
        None => in_header(start, header.len(), line, given),
        Some([]) => after_header(start, given),
        Some(text) => after_line(start, header.len(), line, text, given),
    }
}
