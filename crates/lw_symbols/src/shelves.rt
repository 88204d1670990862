// Symbols by shelves, so that few are halved.
ghost use Rattle.std.specs.Prelude.{ℕ, ◌≡◌, ◌≤◌, ◌<◌, ◌+◌, ◌^◌, IfOk, OnOk, Some, length, min, slice_get};
ghost use Rattle.std.specs.Option.{unwrap_or};
ghost use Rattle.lw_symbols.specs.Shelves.{AreShelfStarts, AreStartsOf, shelf};
ghost use Rattle.lw_symbols.specs.Symbols.{AreSymbolsSorted};
ghost use Rattle.lw_symbols.specs.declared.symbol.Symbol.{Symbol};

use crate::symbol::Symbol;
use lw_base::NoMemory;
use std::alloc::Global;

/// The most shelves that there are.
const MOST: usize = 65_536;

/// On how many shelves so many symbols stand.
fn shelf_count(symbols: usize) -> usize
    ensures { result ≡ min symbols 65536 }
{
    symbols.min(MOST)
}

/// The shelf of a number of names, of so many.
fn shelf_of(hash: u32, count: usize) -> usize
    requires { count ≤ 65536 }
    ensures { result ≡ shelf count hash }
{
    (hash / 65_536) as usize * count / 65_536
}

/// What stands at a place, or this where nothing does.
fn start_at(starts: &[u32], place: usize, otherwise: usize) -> usize
    ensures { result ≡ unwrap_or (slice_get starts.now place) otherwise }
{
    match starts.get(place) {
        None => otherwise,
        Some(start) => *start as usize,
    }
}

/// From where up to where all symbols stand whose names have this number, and what else is on their shelf. Constant time.
pub(crate) fn places_of(symbols: &[Symbol], starts: &[u32], hash: u32) -> (usize, usize)
    requires { AreStartsOf symbols.now starts.now }
    ensures order { result.0 ≤ result.1 }
    ensures end { result.1 ≤ length symbols.now }
    ensures before { (k : ℕ) (s : Symbol) → k < result.0 → slice_get symbols.now k ≡ Some s → s.hash < hash }
    ensures behind { (k : ℕ) (s : Symbol) → result.1 ≤ k → slice_get symbols.now k ≡ Some s → hash < s.hash }
{
    let own = shelf_of(hash, shelf_count(symbols.len()));
    let start = start_at(starts, own, 0);
    let end = start_at(starts, own + 1, symbols.len());
    (start, end)
}

/// Puts in where shelves begin, up to the one on which the symbol at this place stands.
fn put_starts(
    symbols: &[Symbol],
    count: usize,
    place: usize,
    starts: &mut Vec<u32>,
) -> Result<(), NoMemory>
    requires few { count ≤ 65536 }
    requires place { place < length symbols.now }
    requires fits { length symbols.now < 2 ^ 32 }
    requires sorted { AreSymbolsSorted symbols.now }
    requires before { (k : ℕ) (s : Symbol) → k < place → slice_get symbols.now k ≡ Some s → shelf count s.hash < length starts.old.items }
    requires starts { AreShelfStarts count starts.old.items symbols.now }
    ensures before { OnOk result ((k : ℕ) (s : Symbol) → k < place + 1 → slice_get symbols.now k ≡ Some s → shelf count s.hash < length starts.new.items) }
    ensures starts { OnOk result (AreShelfStarts count starts.new.items symbols.now) }
{
    let own = shelf_of(symbols[place].hash, count);
    'shelves: while starts.len() <= own {
        starts.push(place as u32)?;
    }
    Ok(())
}

/// Where each shelf begins, up to the last one that is not empty; nothing where places are too large to be kept. Linear time, and at most 4
/// bytes a symbol.
pub(crate) fn starts_of(alloc: Global, symbols: &[Symbol]) -> Result<Vec<u32>, NoMemory>
    requires { AreSymbolsSorted symbols.now }
    ensures { IfOk result (λ starts. AreStartsOf symbols.now starts.items) }
{
    let mut starts = Vec::new(alloc);
    if symbols.len() > u32::MAX as usize {
        return Ok(starts);
    }
    let count = shelf_count(symbols.len());
    for place in 0..symbols.len() {
        put_starts(symbols, count, place, &mut starts)?;
    }
    Ok(starts)
}
