// Which document the build takes up next: a knockout among the numbers of documents.
ghost use Rattle.std.specs.Prelude.{◌≡◌, ◌≢◌, ◌+◌, ◌*◌, ◌<◌, ◌≤◌, ℕ, length, option_copied, slice_index_or, Some, None};
ghost use Rattle.lw_docs.specs.Table.{doc_in, address_in};
ghost use Rattle.lw_machine.specs.Documents.{rank as rank_of};
ghost use Rattle.lw_docs.specs.Knockout.{waiting_of, turn_cmp, earlier as earlier_of, cell_at, best, IsKnockout, IsKnockoutBut};

use crate::Doc;
use lw_machine::State;
use std::cmp::Ordering;

/// A document that waits for the build: the place of its state in their order, and its number.
#[derive(Clone, Copy, Debug, PartialEq, Eq)]
pub(crate) struct Entrant {
    pub(crate) rank: u8,
    pub(crate) number: u32,
}

/// The place of a state in their order.
fn rank(state: State) -> u8
    ensures { result ≡ rank_of state }
{
    match state {
        State::Changed => 0,
        State::Parsed => 1,
        State::IndexedContent => 2,
        State::ComputedScopes => 3,
        State::Linked => 4,
        State::IndexedReferences => 5,
        State::Validated => 6,
    }
}

fn doc_at(slots: &[Option<Doc>], number: usize) -> Option<&Doc>
    ensures { option_copied result ≡ doc_in slots.now number }
{
    match slots.get(number) {
        Some(Some(doc)) => Some(doc),
        _ => None,
    }
}

/// The document of this number, where there is one that is not validated.
fn waiting(slots: &[Option<Doc>], number: u32) -> Option<Entrant>
    ensures { result ≡ waiting_of number (doc_in slots.now number) }
{
    let doc = doc_at(slots, number as usize)?;
    let rank = rank(doc.state);
    if rank < 6 {
        Some(Entrant { rank, number })
    } else {
        None
    }
}

fn address_of(slots: &[Option<Doc>], number: u32) -> &[u8]
    ensures { result.now ≡ address_in slots.now number }
{
    match doc_at(slots, number as usize) {
        Some(doc) => doc.uri.bytes(),
        None => &[],
    }
}

/// By states, and at one state by addresses.
fn compare(slots: &[Option<Doc>], a: Entrant, b: Entrant) -> Ordering
    ensures { result ≡ turn_cmp slots.now a b }
{
    match a.rank.cmp(&b.rank) {
        Ordering::Equal => address_of(slots, a.number).cmp(address_of(slots, b.number)),
        other => other,
    }
}

fn earlier(slots: &[Option<Doc>], a: Option<Entrant>, b: Option<Entrant>) -> Option<Entrant>
    ensures { result ≡ earlier_of slots.now a b }
{
    let Some(first) = a else {
        return b;
    };
    let Some(second) = b else {
        return a;
    };
    match compare(slots, first, second) {
        Ordering::Greater => b,
        _ => a,
    }
}

/// What a place holds.
pub(crate) fn cell(cells: &[Option<Entrant>], place: usize) -> Option<Entrant>
    ensures { result ≡ cell_at cells.now place }
{
    match cells.get(place) {
        Some(found) => *found,
        None => None,
    }
}

/// Of the document of this number and those that the two places below it hold, the one that comes first.
fn best_below(slots: &[Option<Doc>], cells: &[Option<Entrant>], number: u32) -> Option<Entrant>
    ensures { result ≡ best slots.now cells.now number }
{
    let place = number as usize;
    let left = earlier(slots, waiting(slots, number), cell(cells, 2 * place + 1));
    earlier(slots, left, cell(cells, 2 * place + 2))
}

/// Plays again what the document of this number takes part in, where everything else stands.
pub(crate) fn settle(cells: &mut [Option<Entrant>], slots: &[Option<Doc>], number: u32)
    requires within { number < length cells.old }
    requires small { length cells.old ≤ 65536 }
    requires others { IsKnockoutBut slots.now cells.old number }
    ensures all { IsKnockout slots.now cells.new }
    ensures len { length cells.new ≡ length cells.old }
{
    let mut rest = number + 1;
    while rest > 0 {
        let place = rest - 1;
        cells[place as usize] = best_below(slots, cells, place);
        rest /= 2;
    }
}

/// Gives the document of this number another state, and plays again what it takes part in.
pub(crate) fn turn_to(
    slots: &mut [Option<Doc>],
    cells: &mut [Option<Entrant>],
    number: u32,
    state: State,
)
    requires within { number < length cells.old }
    requires len { length cells.old ≡ length slots.old }
    requires small { length cells.old ≤ 65536 }
    requires all { IsKnockout slots.old cells.old }
    ensures all { IsKnockout slots.new cells.new }
    ensures len { length cells.new ≡ length cells.old }
    ensures slots { length slots.new ≡ length slots.old }
    ensures here { (x : Doc) → doc_in slots.old number ≡ Some x → doc_in slots.new number ≡ Some (record x { state = state }) }
    ensures others { (n : ℕ) → n ≢ number → doc_in slots.new n ≡ doc_in slots.old n }
{
    if let Some(doc) = &mut slots[number as usize] {
        doc.state = state;
    }
    settle(cells, slots, number);
}
