// What the memories that lie in a slice ask before they fetch or store.
ghost use Rattle.std.specs.Prelude.{◌≡◌, ◌<◌, min, OnOk};
ghost use Rattle.memory.specs.Model.{admitted};

use crate::{CELLS, MOST_PAGES, MemoryRefusal};

/// The page first, then the cell.
pub(crate) fn admit(page_count: u16, page: u16, cell: u8) -> Result<(), MemoryRefusal>
    ensures answer { result ≡ admitted page_count page cell tt }
    ensures within { OnOk result ((page < page_count) × (cell < 28)) }
{
    if page >= page_count {
        return Err(MemoryRefusal::NoPage);
    }
    if usize::from(cell) >= CELLS {
        return Err(MemoryRefusal::NoCell);
    }
    Ok(())
}

/// As many pages as a memory can have of `pages` that there is room for.
pub(crate) fn most_of(pages: usize) -> u16
    ensures { result ≡ min pages 65535 }
{
    u16::try_from(pages).unwrap_or(MOST_PAGES)
}
