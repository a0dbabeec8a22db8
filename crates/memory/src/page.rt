// Whole pages, in any memory.
ghost use Rattle.std.specs.Prelude.{◌≡◌};
ghost use Rattle.memory.specs.Model.{found, loaded, restored};

use crate::{CELLS, MemoryRefusal, SettingsMemory};

/// The cells of a page.
#[tactic(auto, using(crate::proofs::Steps::copy_step))]
pub fn load<M: SettingsMemory>(memory: &M, page: u16) -> Result<[u16; CELLS], MemoryRefusal>
    ensures { result ≡ loaded (M.pages memory.now) page }
{
    let mut cells = [0; CELLS];
    // Kept: over `(0..).zip(&mut cells)`, with no cast, an invariant has no name for the cells.
    for (cell, value) in cells.iter_mut().enumerate() {
        *value = memory.fetch(page, cell as u8)?;
    }
    Ok(cells)
}

/// Stores the cells of a whole page; every other page stays. Without such a page nothing changes.
#[tactic(auto, using(std::proofs::lemmas::Grind::common_steps, crate::proofs::Steps::restore_step))]
pub fn restore<M: SettingsMemory>(
    memory: &mut M,
    page: u16,
    cells: &[u16; CELLS],
) -> Result<(), MemoryRefusal>
    ensures answer { result ≡ found (M.pages memory.old) page tt }
    ensures left { M.pages memory.new ≡ restored (M.pages memory.old) page cells.now }
{
    // Kept: over `(0..).zip(cells)`, with no cast, neither the step nor the returns are proved.
    for (cell, value) in cells.iter().enumerate() {
        memory.store(page, cell as u8, *value)?;
    }
    Ok(())
}
