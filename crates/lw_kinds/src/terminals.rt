// The terminals that are kinds.
ghost use Rattle.std.specs.Prelude.{◌≡◌, ◌≤◌, ◌⊎◌, ◌↔◌, true, false, IfOk, IsTrue, length};
ghost use Rattle.lw_kinds.specs.Gathering.{ArePlacesBelow, IsKindBy};

use lw_base::NoMemory;
use lw_grammar::Terminal;
use std::alloc::Global;

/// The places of the terminals that are kinds, where these are marked that are called.
pub(crate) fn kind_places(
    alloc: Global,
    terminals: &[Terminal],
    called: &[bool],
) -> Result<Vec<u16>, NoMemory>
    requires small { length terminals.now ≤ 65535 }
    requires marks { length called.now ≡ length terminals.now }
    ensures { IfOk result (λ places. ArePlacesBelow (IsKindBy called.now terminals.now) terminals.now (length terminals.now) places.items) }
{
    let mut places = Vec::new(alloc);
    for (place, terminal) in terminals.iter().enumerate() {
        if is_kind(terminal, called[place]) {
            places.push(place as u16)?;
        }
    }
    Ok(places)
}

fn is_kind(terminal: &Terminal, called: bool) -> bool
    ensures { IsTrue result ↔ ((terminal.now.is_fragment ≡ false) × ((terminal.now.is_hidden ≡ true) ⊎ (called ≡ true))) }
{
    !terminal.is_fragment && (terminal.is_hidden || called)
}
