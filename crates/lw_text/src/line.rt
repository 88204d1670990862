// The lines of a text.
ghost use Rattle.std.specs.Prelude.{◌≡◌, ◌<◌, ◌≤◌, ◌^◌, ℕ, length, IfOk, MatchOption, All, drop};
ghost use Rattle.lw_text.specs.Lines.{IsNoBreak};
ghost use Rattle.lw_text.specs.Position.{IsLineOf};
ghost use Rattle.lw_text.specs.Starts.{AreStarts, IsLineEnd, IsNextLine};

use lw_base::{Items, NoMemory};
use lw_lanes::next_break;
use std::alloc::Global;

/// A line of a text: how many lines come before it, and the byte at which it begins.
#[derive(Clone, Copy)]
pub(crate) struct LineStart {
    pub(crate) number: u32,
    pub(crate) start: usize,
}

/// The line that the byte `offset` is in, of a text whose lines are not known.
pub(crate) fn line_at(text: &str, offset: usize) -> LineStart
    requires within { offset ≤ length text.now }
    requires small { length text.now < 2 ^ 32 }
    ensures line { IsLineOf text.now offset result.number result.start }
{
    let mut line = LineStart {
        number: 0,
        start: 0,
    };
    'lines: while let Some(next) = next_line(text, line.start) {
        if next > offset {
            break;
        }
        line = LineStart {
            number: line.number + 1,
            start: next,
        };
    }
    line
}

/// Where the lines of the text begin.
pub(crate) fn line_starts(alloc: Global, text: &str) -> Result<Items<u32>, NoMemory>
    requires { length text.now < 2 ^ 32 }
    ensures { IfOk result (λ starts. AreStarts text.now starts) }
{
    let mut starts = Items::new(alloc);
    starts.push(0)?;
    let mut start = 0;
    'lines: while let Some(next) = next_line(text, start) {
        starts.push(next as u32)?;
        start = next;
    }
    Ok(starts)
}

/// The line that the byte `offset` is in, by where the lines begin.
pub(crate) fn line_among(text: &str, starts: &[u32], offset: usize) -> LineStart
    requires starts { AreStarts text.now starts.now }
    requires within { offset ≤ length text.now }
    requires small { length text.now < 2 ^ 32 }
    ensures line { IsLineOf text.now offset result.number result.start }
{
    let mut line = 0;
    let mut end = starts.len();
    'halves: while end - line > 1 {
        let middle = line + (end - line) / 2;
        if starts[middle] as usize <= offset {
            line = middle;
        } else {
            end = middle;
        }
    }
    LineStart {
        number: line as u32,
        start: starts[line] as usize,
    }
}

/// Where the next line begins, behind the one that begins at `start`; None where that one is the last.
fn next_line(text: &str, start: usize) -> Option<usize>
    requires { start ≤ length text.now }
    ensures { MatchOption result (All IsNoBreak (drop start text.now)) (IsNextLine text.now start) }
{
    let end = line_end(text, start);
    let rest = &text.as_bytes()[end..];
    if rest.is_empty() {
        None
    } else if rest.starts_with(b"\r\n") {
        Some(end + 2)
    } else {
        Some(end + 1)
    }
}

/// Where what stands in the line that begins at `start` ends: at what ends the line, or at the end of
/// the text.
pub(crate) fn line_end(text: &str, start: usize) -> usize
    requires { start ≤ length text.now }
    ensures { IsLineEnd text.now start result }
{
    next_break(text.as_bytes(), start).unwrap_or(text.len())
}
