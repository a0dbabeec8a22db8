// A bulk write put over a page, in hand and in a memory.
ghost use Rattle.std.specs.Prelude.{◌≡◌, ◌<◌, [], slice_index_or, slice_set};
ghost use Rattle.command.specs.Merged.{with_cell, stored_cell, merged_cells};

use crate::bulk_write::BulkWrite;
use crate::settings::Page;
use memory::{CELLS, SettingsMemory};

fn put_cell(page: &mut Page, cell: usize, value: Option<u16>)
    requires { cell < 28 }
    ensures { page.new ≡ with_cell page.old cell value }
{
    if let Some(number) = value {
        page[cell] = number;
    }
}

impl BulkWrite {
    // Each cell as it is set, else as the page has it.
    #[tactic(auto, using(crate::proofs::MergeSteps::merged_all))]
    pub(crate) fn merged(&self, page: &Page) -> Page
        ensures { result ≡ merged_cells self.now.cells page.now }
    {
        let mut merged = *page;
        for (cell, value) in self.cells.iter().enumerate() {
            put_cell(&mut merged, cell, *value);
        }
        merged
    }
}

fn store_cell<M: SettingsMemory>(memory: &mut M, page: u16, cell: u8, value: Option<u16>)
    ensures { M.pages memory.new ≡ stored_cell (M.pages memory.old) page cell value }
{
    if let Some(number) = value {
        let _ = memory.store(page, cell, number);
    }
}

// Stores the cells that are set, and no other.
// Kept: `enumerate` counts in usize, and a second counter in u8 beside it is no plainer than one cast.
pub(crate) fn store_cells<M: SettingsMemory>(
    cells: &[Option<u16>; CELLS],
    memory: &mut M,
    page: u16,
)
    ensures { M.pages memory.new ≡ slice_set (M.pages memory.old) page (merged_cells cells.now (slice_index_or (M.pages memory.old) page [])) }
{
    for (cell, value) in cells.iter().enumerate() {
        store_cell(memory, page, cell as u8, *value);
    }
}
