// One step of an NFA over the front of a text.
ghost use Rattle.std.specs.Prelude.{◌≡◌, ◌≤◌, ◌++◌, ℕ, List, vec_len, length, IfSome};
ghost use Rattle.regex_hir.specs.Looks as looks;
ghost use Rattle.regex_nfa.specs.Run.{state_of};
ghost use Rattle.regex_nfa.specs.States.{IsReadable};
ghost use Rattle.lw_matching.specs.Steps.{IsPair, LeadsOn, ReadsByte};

use regex_hir::Look;
use regex_nfa::{Nfa, State, StateId, char_at, holds};

/// Where a state at a position leads to.
#[derive(Clone, Copy, Debug, PartialEq, Eq)]
pub(crate) enum Onward {
    /// To this state at this position, and nowhere else.
    Go(StateId, usize),
    /// To the first state at the same position, and where that fails to the second.
    Both(StateId, StateId),
    /// Nowhere.
    Back,
    /// The match ends here.
    Ends,
    /// What follows the text decides.
    Unknown,
}

/// One step from the state at the position.
pub(crate) fn step(nfa: &Nfa, text: &[u8], id: StateId, at: usize) -> Onward
    requires { IsPair nfa.now text.now id at }
    ensures { LeadsOn nfa.now text.now id at result }
{
    let state = nfa.state(id);
    match state {
        State::ByteRange(_) => read(nfa, text, id, state, at),
        State::Sparse { from: _, to: _ } => read(nfa, text, id, state, at),
        State::Split { first, second } => Onward::Both(first, second),
        State::Save { slot: _, next } => Onward::Go(next, at),
        State::Look { look, next } => match foreseen_look(look, text, at) {
            Some(true) => Onward::Go(next, at),
            Some(false) => Onward::Back,
            None => Onward::Unknown,
        },
        State::Match => Onward::Ends,
        State::Fail => Onward::Back,
    }
}

// One step from a state that reads a byte.
fn read(nfa: &Nfa, text: &[u8], id: StateId, state: State, at: usize) -> Onward
    requires pair { IsPair nfa.now text.now id at }
    requires state { state ≡ state_of nfa.now id }
    requires reads { ReadsByte state }
    requires readable { IsReadable nfa.now.transitions.items (vec_len nfa.now.states) state }
    ensures { LeadsOn nfa.now text.now id at result }
{
    if at < text.len() {
        match nfa.next_on(state, text[at]) {
            Some(next) => Onward::Go(next, at + 1),
            None => Onward::Back,
        }
    } else {
        Onward::Unknown
    }
}

// Whether the assertion holds at the position, where that does not hang on what follows the text.
fn foreseen_look(look: Look, text: &[u8], at: usize) -> Option<bool>
    ensures { IfSome result (λ it_holds. (more : List ℕ) → looks.holds look (text.now ++ more) at ≡ it_holds) }
{
    match look {
        Look::Start if at == 0 => Some(true),
        _ => match char_at(text, at) {
            Some(_) => Some(holds(look, text, at)),
            None => None,
        },
    }
}
