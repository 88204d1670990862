// The keywords by their first byte.
ghost use Rattle.std.specs.Prelude.{◌≡◌, ◌↔◌, ◌∷◌, List, ℕ, IfOk, IsTrue};
ghost use Rattle.lw_matchers.specs.Starting.{AreStarting, IsByFirstByte};

use lw_base::{Items, Name, NoMemory};
use std::alloc::Global;

/// For each byte the places of the keywords that begin with it.
pub(crate) fn by_first_byte(alloc: Global, keywords: &[Name]) -> Result<Vec<Items<usize>>, NoMemory>
    ensures { IfOk result (λ table. IsByFirstByte keywords.now table.items) }
{
    let mut table = Vec::with_capacity(alloc, 256)?;
    for byte in 0..256usize {
        table.push(starting_with(alloc, keywords, byte as u8)?)?;
    }
    Ok(table)
}

// The places of the keywords that begin with the byte.
fn starting_with(alloc: Global, keywords: &[Name], byte: u8) -> Result<Items<usize>, NoMemory>
    ensures { IfOk result (AreStarting keywords.now byte) }
{
    let mut places = Vec::new(alloc);
    for k in 0..keywords.len() {
        if begins_with(&keywords[k], byte) {
            places.push(k)?;
        }
    }
    Ok(Items::from_vec(places))
}

fn begins_with(keyword: &Name, byte: u8) -> bool
    ensures { IsTrue result ↔ ((rest : List ℕ) × (keyword.now ≡ byte ∷ rest)) }
{
    match keyword.bytes() {
        [first, ..] => *first == byte,
        [] => false,
    }
}
