// A position as people read it.
ghost use Rattle.std.specs.Prelude.{◌≡◌, IfOk, string_bytes};
ghost use Rattle.lw_commands.specs.Checked.{printed};

use lw_base::NoMemory;
use lw_text::Pos;
use std::alloc::Global;

/// `LINE:COL`, both counted from 1, columns in UTF-16 units.
pub(crate) fn printed(alloc: Global, at: Pos) -> Result<String, NoMemory>
    ensures { IfOk result (λ text. string_bytes text ≡ printed at) }
{
    let line = u64::from(at.line) + 1;
    let column = u64::from(at.character) + 1;
    Ok(format!(in alloc; "{line}:{column}")?)
}
