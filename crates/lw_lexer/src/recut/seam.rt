// What is known of a cut at the end of what was put behind a text, where more follows.
ghost use Rattle.std.specs.Prelude.{◌≡◌, ◌↔◌, ◌≤◌, IsTrue, option_map};
ghost use Rattle.lw_lexer.specs.Place.{next_of};
ghost use Rattle.lw_tokens.specs.Cut.{token_at};
ghost use Rattle.lw_lexer.specs.Seams.{IsMeeting};

use crate::Next;
use lw_base::Token;

/// What is known of the cut of a text that goes on behind what was put in.
#[derive(Clone, Copy, Debug, PartialEq, Eq)]
pub enum Seam {
    /// It begins with the tokens so far.
    Meets,
    /// No token of it ends where these end.
    Crossed,
    /// It would have to be cut.
    Unknown,
}

/// How what stands at the place of a token in the whole text compares with it.
#[derive(Clone, Copy)]
pub(crate) enum Meeting {
    /// It is the token.
    Same,
    /// It reaches across the end of what was put in, or no token stands there.
    Across,
    /// It is another.
    Other,
}

/// How what is found at the place of a token compares with it, where `left` bytes are left up to the end of what was put in.
pub(crate) fn compare(found: &Option<Next>, token: Token, left: usize) -> Meeting
    requires { token.span.start ≤ token.span.end }
    ensures { IsMeeting (option_map next_of found.now) token left result }
{
    match found {
        None => Meeting::Across,
        Some(next) if is_there(*next, token) => Meeting::Same,
        Some(next) if left < next.bytes => Meeting::Across,
        Some(_) => Meeting::Other,
    }
}

/// Whether this is the token, as it stands at its place.
fn is_there(next: Next, token: Token) -> bool
    requires { token.span.start ≤ token.span.end }
    ensures { IsTrue result ↔ (token_at token.span.start (next_of next) ≡ token) }
{
    next.kind == token.kind
        && next.hidden == token.hidden
        && next.bytes == (token.span.end - token.span.start) as usize
}
