// Two memories as one.
ghost use Rattle.memory.specs.Joined.{one_after, Leads};
ghost use Rattle.memory.specs.Paging.{one_after_paged};

use crate::{MOST_PAGES, MemoryRefusal, SettingsMemory};

/// Two memories as one: the first one's pages, then the second's. What comes after the 65,535th is not seen.
#[derive(Drop)]
pub struct JoinedMemory<A, B> {
    pub first: A,
    pub second: B,
}

/// In which of the two a page lies, and its number there.
// Kept: `Either<u16, u16>` would say `Left` and `Right` where these say `First` and `Second`, as the fields do.
#[derive(Clone, Copy)]
enum Part {
    First(u16),
    Second(u16),
}

impl<A: SettingsMemory, B: SettingsMemory> JoinedMemory<A, B> {
    fn find(&self, page: u16) -> Result<Part, MemoryRefusal>
        ensures { Leads (A.SettingsMemory.pages self.now.first) (B.SettingsMemory.pages self.now.second) page result }
    {
        let before = self.first.page_count();
        if page < before {
            Ok(Part::First(page))
        } else if page < MOST_PAGES {
            Ok(Part::Second(page - before))
        } else {
            Err(MemoryRefusal::NoPage)
        }
    }
}

impl<A: SettingsMemory, B: SettingsMemory> SettingsMemory for JoinedMemory<A, B> {
    ghost pages = { λ m. one_after (A.SettingsMemory.pages m.first) (B.SettingsMemory.pages m.second) };

    ghost paged = { λ m. one_after_paged _ _ (A.SettingsMemory.paged m.first) (B.SettingsMemory.paged m.second) };

    #[tactic(auto, using(crate::specs::Paging::length_one_after))]
    fn page_count(&self) -> u16 {
        self.first
            .page_count()
            .saturating_add(self.second.page_count())
    }

    // Kept: `fetch` and `store` borrow the two memories differently, so one `match` for both would take closures.
    fn fetch(&self, page: u16, cell: u8) -> Result<u16, MemoryRefusal> {
        match self.find(page)? {
            Part::First(page) => self.first.fetch(page, cell),
            Part::Second(page) => self.second.fetch(page, cell),
        }
    }

    fn store(&mut self, page: u16, cell: u8, value: u16) -> Result<(), MemoryRefusal> {
        match self.find(page)? {
            Part::First(page) => self.first.store(page, cell, value),
            Part::Second(page) => self.second.store(page, cell, value),
        }
    }
}
