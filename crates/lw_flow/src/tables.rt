// Tables of sets, one for each rule.
ghost use Rattle.std.specs.Prelude.{◌≡◌, ◌<◌, ℕ, IfOk, length};
ghost use Rattle.lw_flow.specs.Rows.{RowPut, AreEmptyRows};

use crate::sets::put_all;
use indexmap::IndexSet;
use lw_base::NoMemory;
use std::alloc::Global;
use std::hash::Hash;

/// So many empty sets.
pub(crate) fn empty_rows<T: Eq + Hash + Copy>(
    alloc: Global,
    count: usize,
) -> Result<Vec<IndexSet<T>>, NoMemory>
    ensures count { IfOk result (λ table. length table.items ≡ count) }
    ensures none { IfOk result (λ table. AreEmptyRows table.items) }
{
    let mut table = Vec::new(alloc);
    for _row in 0..count {
        table.push(IndexSet::new(alloc))?;
    }
    Ok(table)
}

/// Puts each of these into a set of the table, and says whether one is new there.
pub(crate) fn widen_row<T: Eq + Hash + Copy>(
    table: &mut Vec<IndexSet<T>>,
    number: usize,
    items: &[T],
) -> Result<bool, NoMemory>
    requires { number < length table.old.items }
    ensures { IfOk result (λ grown. RowPut T.eq number items.now grown table.old.items table.new.items) }
{
    put_all(&mut table[number], items)
}
