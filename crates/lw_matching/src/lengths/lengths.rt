// How many bytes a pattern matches at each place of a text.
ghost use Rattle.std.specs.Prelude.{◌≡◌, ◌≤◌, ◌↔◌, ℕ, List, Ok, None, IfOk, IfSome, IsTrue, length, vec_len, drop};
ghost use Rattle.lw_base.specs.declared.limits.TheConstants.{LONGEST_TEXT};
ghost use Rattle.lw_matching.specs.Nfas.{IsNfaOf};
ghost use Rattle.lw_matching.specs.Lengths.{AreMatchLengths};
ghost use Rattle.lw_matching.specs.Order.{IsOrder};
ghost use Rattle.lw_matching.specs.Rows.{AsksForStart, IsPlace, end_from};
ghost use Rattle.lw_matching.specs.Starts.{AreStartLengths};

use crate::lengths::order::{Ranked, order_of};
use crate::lengths::row::{Place, fill_row};
use lw_base::NoMemory;
use regex_hir::Look;
use regex_nfa::{Nfa, State};
use std::alloc::Global;
use std::mem::swap;

/// How many bytes the pattern of the automaton matches at each place of the text, its end among them. Nothing is told where the pattern has
/// another assertion than that of the start.
///
/// It takes two steps for each state and byte, however far the pattern reads, and eight bytes of memory for each byte.
pub fn match_lengths(
    alloc: Global,
    nfa: &Nfa,
    text: &str,
) -> Result<Option<Vec<Option<u32>>>, NoMemory>
    requires { length text.now ≤ LONGEST_TEXT }
    ensures lengths { IfOk result (λ found. IfSome found (λ lengths. (pattern : List ℕ) → IsNfaOf pattern nfa.now
        → AreMatchLengths pattern text.now lengths.items)) }
    ensures none { result ≡ Ok None → ¬ AsksForStart nfa.now }
{
    if !asks_for_start(nfa) {
        return Ok(None);
    }
    let lengths = start_lengths(alloc, nfa, text.as_bytes())?;
    Ok(Some(lengths))
}

// Whether the only assertion of the automaton is that of the start.
fn asks_for_start(nfa: &Nfa) -> bool
    ensures { IsTrue result ↔ AsksForStart nfa.now }
{
    for state in &nfa.states {
        match state {
            State::Look { look, next: _ } if *look != Look::Start => return false,
            _ => {}
        }
    }
    true
}

// How many bytes the automaton's match takes at each place, from the last to the first.
fn start_lengths(alloc: Global, nfa: &Nfa, text: &[u8]) -> Result<Vec<Option<u32>>, NoMemory>
    requires looks { AsksForStart nfa.now }
    requires fits { length text.now ≤ LONGEST_TEXT }
    ensures { IfOk result (λ lengths. AreStartLengths nfa.now text.now lengths.items) }
{
    let order = order_of(alloc, nfa)?;
    let mut behind = vec![in alloc; None; nfa.states.len()]?;
    let mut row = vec![in alloc; None; nfa.states.len()]?;
    let mut lengths = vec![in alloc; None; text.len() + 1]?;
    for step in 0..text.len() + 1 {
        let at = text.len() - step;
        let behind_it = behind.as_slice();
        let start = Place {
            nfa,
            text,
            at,
            starts: true,
            behind: behind_it,
        };
        lengths[at] = start_length(&start, order.as_slice(), row.as_mut_slice());
        let inside = Place {
            nfa,
            text,
            at,
            starts: false,
            behind: behind_it,
        };
        fill_row(&inside, order.as_slice(), row.as_mut_slice());
        swap(&mut behind, &mut row);
    }
    Ok(lengths)
}

// How many bytes the match takes of a search that begins at the place. What the row held is lost.
fn start_length(place: &Place<'_>, order: &[Ranked], row: &mut [Option<u32>]) -> Option<u32>
    requires place { IsPlace place.now }
    requires starts { IsTrue place.now.starts }
    requires order { IsOrder place.now.nfa.now order.now }
    requires count { length row.old ≡ vec_len place.now.nfa.now.states }
    ensures length { result ≡ end_from place.now.nfa.now (drop place.now.at place.now.text.now) place.now.nfa.now.start 0 }
    ensures count { length row.new ≡ vec_len place.now.nfa.now.states }
{
    fill_row(place, order, row);
    match row[place.nfa.start as usize] {
        Some(end) => Some(end - place.at as u32),
        None => None,
    }
}
