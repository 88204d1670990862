// Which places of a program may read nothing.
ghost use Rattle.std.specs.Prelude.{◌≡◌, ◌↔◌, ◌<◌, ◌≤◌, ℕ, IsTrue, IfOk};
ghost use Rattle.lw_viable.specs.EmptyBy.{AreEmptyFrom, IsEmptyBy, IsFlagged, NameLater};

use lw_base::NoMemory;
use lw_program::Instr;
use std::alloc::Global;

/// A flag for each place: whether it may read nothing. By a flag for each rule the same is known of calls. Places are gone through from
/// the last to the first, since those that an instruction names come later. Linear in the size of the program.
pub(crate) fn empty_places(
    alloc: Global,
    calls: &[bool],
    code: &[Instr],
) -> Result<Vec<bool>, NoMemory>
    ensures { NameLater code.now → IfOk result (λ empty. AreEmptyFrom calls.now code.now empty.items 0) }
{
    let mut empty = vec![in alloc; false; code.len()]?;
    let mut left = code.len();
    'places: while left > 0 {
        left -= 1;
        empty[left] = is_empty(calls, code, empty.as_slice(), code[left]);
    }
    Ok(empty)
}

/// Whether the instruction may be done without a token, where this is known of the places that it names.
fn is_empty(calls: &[bool], code: &[Instr], empty: &[bool], instr: Instr) -> bool
    ensures { IsTrue result ↔ IsEmptyBy calls.now code.now empty.now instr }
{
    match instr {
        Instr::Token(_) => false,
        Instr::End | Instr::Shut | Instr::Act(_) => true,
        Instr::Row { first, end } => are_all_set(empty, first, end),
        Instr::Choice { first, end, .. } => is_one_set(empty, first, end),
        Instr::Maybe { .. } | Instr::Loop { .. } => true,
        Instr::Once { rest } => match code.get(rest as usize) {
            Some(Instr::Loop { body, .. }) => is_set(empty, *body as usize),
            _ => false,
        },
        Instr::Put { first, .. } => is_set(empty, first as usize),
        Instr::Call { rule } => is_set(calls, rule as usize),
    }
}

/// Whether the flag of this number is set.
fn is_set(flags: &[bool], number: usize) -> bool
    ensures { IsTrue result ↔ IsFlagged flags.now number }
{
    flags.get(number) == Some(&true)
}

/// Whether each flag from the first up to the end is set.
fn are_all_set(flags: &[bool], first: u32, end: u32) -> bool
    ensures { IsTrue result ↔ ((q : ℕ) → first ≤ q → q < end → IsFlagged flags.now q) }
{
    for number in first..end {
        if !is_set(flags, number as usize) {
            return false;
        }
    }
    true
}

/// Whether some flag from the first up to the end is set.
fn is_one_set(flags: &[bool], first: u32, end: u32) -> bool
    ensures { IsTrue result ↔ ((q : ℕ) × (first ≤ q) × (q < end) × IsFlagged flags.now q) }
{
    for number in first..end {
        if is_set(flags, number as usize) {
            return true;
        }
    }
    false
}
