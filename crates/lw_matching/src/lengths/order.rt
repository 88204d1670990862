// The states of an automaton in the order of their ranks.
ghost use Rattle.std.specs.Prelude.{IfOk, IsPermutation};
ghost use Rattle.lw_matching.specs.Order.{AreRanked, IsOrder};

use lw_base::NoMemory;
use regex_nfa::{Nfa, StateId};
use std::alloc::Global;

/// A state with its rank, which falls along each edge that reads no byte.
#[derive(Clone, Copy, Debug, PartialEq, Eq)]
pub(crate) struct Ranked {
    pub(crate) rank: u32,
    pub(crate) state: StateId,
}

/// All states, the lowest rank first.
pub(crate) fn order_of(alloc: Global, nfa: &Nfa) -> Result<Vec<Ranked>, NoMemory>
    ensures { IfOk result (λ order. IsOrder nfa.now order.items) }
{
    let mut order = ranked_states(alloc, nfa)?;
    order.sort_by_key(|ranked| ranked.rank)?;
    Ok(order)
}

// All states by their numbers.
fn ranked_states(alloc: Global, nfa: &Nfa) -> Result<Vec<Ranked>, NoMemory>
    ensures { IfOk result (λ list. AreRanked nfa.now list.items) }
{
    let count = nfa.states.len();
    let mut list = Vec::with_capacity(alloc, count)?;
    for state in 0..count {
        list.push(Ranked {
            rank: nfa.ranks[state],
            state: state as u32,
        })?;
    }
    Ok(list)
}
