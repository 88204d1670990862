// The numbers of finished nodes.
ghost use Rattle.std.specs.Prelude.{◌<◌, ◌^◌, length, IfOk};
ghost use Rattle.lw_builder.specs.Finishing.{AreNested, AreNumbered};

use crate::preorder::Finished;
use lw_base::NoMemory;
use std::alloc::Global;

/// The number of each node, by its place: the number after its container's, and after those of what was
/// finished inside the container before it. One pass from the last place to the first, so that a
/// container has its number before what stands in it.
pub fn numbers(alloc: Global, finished: &[Finished]) -> Result<Vec<u32>, NoMemory>
    requires room { length finished.now < 2 ^ 32 }
    requires nested { AreNested finished.now }
    ensures { IfOk result (λ v. AreNumbered finished.now v.items) }
{
    let mut numbers = vec![in alloc; 0u32; finished.len()]?;
    for place in (0..finished.len()).rev() {
        let inside = &finished[place];
        match inside.node.container {
            None => numbers[place] = 0,
            Some(above) => {
                let container = &finished[above.0 as usize];
                numbers[place] = numbers[above.0 as usize] + 1 + (inside.start - container.start);
            }
        }
    }
    Ok(numbers)
}
