// The rows of places: where the matches end that go on from each state there.
ghost use Rattle.std.specs.Prelude.{◌≡◌, ◌<◌, ℕ, None, length, vec_len};
ghost use Rattle.std.specs.List.{slice_index_or};
ghost use Rattle.regex_nfa.specs.Run.{state_of};
ghost use Rattle.regex_nfa.specs.States.{IsBelow, IsReadable};
ghost use Rattle.lw_matching.specs.Steps.{ReadsByte};
ghost use Rattle.lw_matching.specs.Order.{IsOrder};
ghost use Rattle.lw_matching.specs.Rows.{IsEndFrom, IsPlace, IsRow};

use crate::lengths::order::Ranked;
use regex_nfa::{Nfa, State, StateId};

/// A place of a text: whether a search begins there, and the row of the place behind it, where no search begins.
#[derive(Clone, Copy)]
pub(crate) struct Place<'p> {
    pub(crate) nfa: &'p Nfa,
    pub(crate) text: &'p [u8],
    pub(crate) at: usize,
    pub(crate) starts: bool,
    pub(crate) behind: &'p [Option<u32>],
}

/// Makes this the row of the place: for each state where in the text the first match ends that goes on from it, if there is one.
pub(crate) fn fill_row(place: &Place<'_>, order: &[Ranked], row: &mut [Option<u32>])
    requires place { IsPlace place.now }
    requires order { IsOrder place.now.nfa.now order.now }
    requires count { length row.old ≡ vec_len place.now.nfa.now.states }
    ensures count { length row.new ≡ vec_len place.now.nfa.now.states }
    ensures row { IsRow place.now.nfa.now place.now.text.now place.now.at place.now.starts row.new }
{
    for ranked in order {
        row[ranked.state as usize] = end_from(place, ranked.state, row);
    }
}

// Where the match ends that goes on from this state, by those of the states below it.
fn end_from(place: &Place<'_>, id: StateId, row: &[Option<u32>]) -> Option<u32>
    requires place { IsPlace place.now }
    requires state { id < vec_len place.now.nfa.now.states }
    requires count { length row.now ≡ vec_len place.now.nfa.now.states }
    requires below { (r : ℕ) → IsBelow place.now.nfa.now.ranks.items r id
        → IsEndFrom place.now.nfa.now place.now.text.now place.now.at place.now.starts r (slice_index_or row.now r None) }
    ensures { IsEndFrom place.now.nfa.now place.now.text.now place.now.at place.now.starts id result }
{
    let state = place.nfa.state(id);
    match state {
        State::ByteRange(_) => end_behind(place, id, state),
        State::Sparse { from: _, to: _ } => end_behind(place, id, state),
        State::Split { first, second } => match row[first as usize] {
            Some(end) => Some(end),
            None => row[second as usize],
        },
        State::Save { slot: _, next } => row[next as usize],
        State::Look { look: _, next } => {
            if place.starts {
                row[next as usize]
            } else {
                None
            }
        }
        State::Match => Some(place.at as u32),
        State::Fail => None,
    }
}

// The same of a state that reads a byte.
fn end_behind(place: &Place<'_>, id: StateId, state: State) -> Option<u32>
    requires place { IsPlace place.now }
    requires state { state ≡ state_of place.now.nfa.now id }
    requires reads { ReadsByte state }
    requires readable { IsReadable place.now.nfa.now.transitions.items (vec_len place.now.nfa.now.states) state }
    ensures { IsEndFrom place.now.nfa.now place.now.text.now place.now.at place.now.starts id result }
{
    if place.at < place.text.len() {
        match place.nfa.next_on(state, place.text[place.at]) {
            Some(next) => place.behind[next as usize],
            None => None,
        }
    } else {
        None
    }
}
