// Working memory: a lent slice of cells, page after page.
ghost use Rattle.std.specs.Prelude.{◌≡◌, ◌+◌, ◌*◌, ◌<◌, length, IfOk};
ghost use Rattle.memory.specs.Model.{answered, stored};
ghost use Rattle.memory.specs.Working.{by_page, written};
ghost use Rattle.memory.specs.Paging.{by_page_paged};

use crate::admission::{admit, most_of};
use crate::{CELLS, MemoryRefusal, SettingsMemory};

/// A lent slice of cells, page after page; what is left over at its end belongs to no page.
#[derive(Drop)]
pub struct WorkingMemory<'a> {
    pub cells: &'a mut [u16],
}

impl WorkingMemory<'_> {
    /// Where a cell lies in the slice, unless it is refused.
    fn place(&self, page: u16, cell: u8) -> Result<usize, MemoryRefusal>
        ensures at { result ≡ answered (by_page self.now.cells.now) page cell (28 * page + cell) }
        ensures within { IfOk result (λ i. i < length self.now.cells.now) }
    {
        admit(self.page_count(), page, cell)?;
        Ok(CELLS * usize::from(page) + usize::from(cell))
    }
}

impl SettingsMemory for WorkingMemory<'_> {
    ghost pages = { λ m. by_page m.cells.now };

    ghost paged = { λ m. by_page_paged m.cells.now };

    #[tactic(auto, using(crate::proofs::ByPage::length_by_page))]
    fn page_count(&self) -> u16 {
        most_of(self.cells.len() / CELLS)
    }

    #[tactic(auto, using(crate::proofs::ByPage::fetched_at, crate::proofs::Steps::answered_ok))]
    fn fetch(&self, page: u16, cell: u8) -> Result<u16, MemoryRefusal> {
        // Kept: with no `let` here the proof does not know that the cell fits 16 bits.
        let value = self.cells[self.place(page, cell)?];
        Ok(value)
    }

    /// Of the whole slice, what belongs to no page included, one element changes, or none.
    #[tactic(auto, using(crate::proofs::ByPage::stored_at, crate::proofs::ByPage::written_at, crate::proofs::Steps::answered_ok))]
    fn store(&mut self, page: u16, cell: u8, value: u16) -> Result<(), MemoryRefusal>
        ensures answer { result ≡ answered (by_page self.old.cells.now) page cell tt }
        ensures left { by_page self.new.cells.now ≡ stored (by_page self.old.cells.now) page cell value }
        ensures raw { self.new.cells.now ≡ written self.old.cells.now page cell value }
        ensures lent { self.new.cells.ghost_name ≡ self.old.cells.ghost_name }
    {
        let place = self.place(page, cell)?;
        self.cells[place] = value;
        Ok(())
    }
}
