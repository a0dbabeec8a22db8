// A memory with no pages.
ghost use Rattle.std.specs.Prelude.{[]};
ghost use Rattle.memory.specs.Paging.{none_paged};

use crate::{MemoryRefusal, SettingsMemory};

/// A memory with no pages.
#[derive(Clone, Copy)]
pub struct NoMemory;

impl SettingsMemory for NoMemory {
    ghost pages = { λ _. [] };

    ghost paged = { λ _. none_paged };

    fn page_count(&self) -> u16 {
        0
    }

    fn fetch(&self, _page: u16, _cell: u8) -> Result<u16, MemoryRefusal> {
        Err(MemoryRefusal::NoPage)
    }

    fn store(&mut self, _page: u16, _cell: u8, _value: u16) -> Result<(), MemoryRefusal> {
        Err(MemoryRefusal::NoPage)
    }
}
