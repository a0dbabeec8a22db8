//! Settings memory: numbered pages of 28 cells, each cell a 16-bit number.

#![tactic(auto)]

ghost use Rattle.std.specs.Prelude.{◌≡◌, ℕ, List, length};
ghost use Rattle.memory.specs.Model.{Paged, answered, fetched, stored};

mod admission;
mod chip;
mod joined;
mod none;
mod page;
#[cfg(test)]
mod tests;
mod working;

pub use chip::ChipImage;
pub use joined::JoinedMemory;
pub use none::NoMemory;
pub use page::{load, restore};
pub use working::WorkingMemory;

/// How many cells a page has; they are numbered from 0.
pub const CELLS: usize = 28;

/// How many pages a memory has at most; they are numbered from 0.
pub const MOST_PAGES: u16 = u16::MAX;

/// Why a memory refuses to fetch or to store. It asks for the page first.
#[derive(Clone, Copy, Debug, PartialEq, Eq)]
pub enum MemoryRefusal {
    /// The memory has no page of that number.
    NoPage,
    /// A page has no cell of that number.
    NoCell,
}

/// What holds settings. `pages` says what a memory holds, and `paged` that this is a memory's content:
/// at most 65,535 pages, 28 cells on each, each cell at most 65,535.
pub trait SettingsMemory {
    ghost pages: { Self → List (List ℕ) };

    ghost paged: { (m : Self) → Paged (pages m) };

    /// How many pages there are.
    fn page_count(&self) -> u16
        ensures { result ≡ length (pages self.now) };

    /// What a cell holds.
    // Kept: page and cell are two numbers, since whether a memory has such a cell is what each call asks.
    fn fetch(&self, page: u16, cell: u8) -> Result<u16, MemoryRefusal>
        ensures { result ≡ fetched (pages self.now) page cell };

    /// Replaces a cell and no other, or refuses and changes nothing.
    fn store(&mut self, page: u16, cell: u8, value: u16) -> Result<(), MemoryRefusal>
        ensures answer { result ≡ answered (pages self.old) page cell tt }
        ensures left { pages self.new ≡ stored (pages self.old) page cell value };
}
