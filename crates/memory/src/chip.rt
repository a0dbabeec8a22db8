// The image of a chip: a lent slice of octets, cell after cell.
ghost use Rattle.std.specs.Prelude.{◌≡◌, ◌+◌, ◌<◌, length, IfOk};
ghost use Rattle.memory.specs.Model.{answered, stored};
ghost use Rattle.memory.specs.Chip.{place, by_cell, imprinted};
ghost use Rattle.memory.specs.Paging.{by_cell_paged};

use crate::admission::{admit, most_of};
use crate::{CELLS, MemoryRefusal, SettingsMemory};

/// How many octets a cell takes, the high one first.
const CELL_OCTETS: usize = 2;

/// How many octets a page takes.
const PAGE_OCTETS: usize = CELL_OCTETS * CELLS;

/// A lent slice of octets: cell 0 of all pages, then cell 1 of all pages, and so on.
/// What is left over at its end belongs to no page.
#[derive(Drop)]
pub struct ChipImage<'a> {
    pub octets: &'a mut [u8],
}

impl ChipImage<'_> {
    /// Where the high octet of a cell lies, the low one behind it, unless the cell is refused.
    fn place(&self, page: u16, cell: u8) -> Result<usize, MemoryRefusal>
        ensures at { let pages = by_cell self.now.octets.now in result ≡ answered pages page cell (place (length pages) page cell) }
        ensures within { IfOk result (λ high. high + 1 < length self.now.octets.now) }
    {
        let page_count = self.page_count();
        admit(page_count, page, cell)?;
        let cells_before = usize::from(cell) * usize::from(page_count) + usize::from(page);
        Ok(CELL_OCTETS * cells_before)
    }
}

// Kept: a trait for what this shares with WorkingMemory would state the clauses of `fetch` and `store` a third time, for two calls.
impl SettingsMemory for ChipImage<'_> {
    ghost pages = { λ m. by_cell m.octets.now };

    ghost paged = { λ m. by_cell_paged m.octets.now };

    #[tactic(auto, using(crate::proofs::ByCell::length_by_cell))]
    fn page_count(&self) -> u16 {
        most_of(self.octets.len() / PAGE_OCTETS)
    }

    #[tactic(auto, using(crate::proofs::ByCell::fetched_at, crate::proofs::Steps::answered_ok))]
    fn fetch(&self, page: u16, cell: u8) -> Result<u16, MemoryRefusal> {
        let high = self.place(page, cell)?;
        Ok(u16::from_be_bytes([self.octets[high], self.octets[high + 1]]))
    }

    /// Of the whole slice, what belongs to no page included, two octets change, or none.
    #[tactic(auto, using(crate::proofs::ByCell::stored_at, crate::proofs::ByCell::imprinted_at, crate::proofs::Steps::answered_ok))]
    fn store(&mut self, page: u16, cell: u8, value: u16) -> Result<(), MemoryRefusal>
        ensures answer { result ≡ answered (by_cell self.old.octets.now) page cell tt }
        ensures left { by_cell self.new.octets.now ≡ stored (by_cell self.old.octets.now) page cell value }
        ensures raw { self.new.octets.now ≡ imprinted self.old.octets.now page cell value }
        ensures lent { self.new.octets.ghost_name ≡ self.old.octets.ghost_name }
    {
        let high = self.place(page, cell)?;
        let [first, second] = value.to_be_bytes();
        self.octets[high] = first;
        self.octets[high + 1] = second;
        Ok(())
    }
}
