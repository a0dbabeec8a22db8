// The settings table: one row for each field of a bulk write that is a setting.
ghost use Rattle.std.specs.Prelude.{◌≡◌, true};
ghost use Rattle.std.specs.List.{AllByRecursion, range_with_len};
ghost use Rattle.command.specs.Table.{rows, table, Within, cells_in, covered_once, initials_allowed, limits_in_order, initial_page, cells_of, with_initial};

use crate::setting::{Allowed, Setting};
use memory::CELLS;

// A page: the 28 settings cells of one station.
pub type Page = [u16; CELLS];

pub(crate) const PULSE_TYPE: Setting = Setting {
    cell: 0,
    position: 20,
    width: 2,
    allowed: Allowed::Span(0, 3),
    initial: 1,
};

pub(crate) const SYNC_TYPE: Setting = Setting {
    cell: 1,
    position: 22,
    width: 2,
    allowed: Allowed::Span(0, 3),
    initial: 0,
};

pub(crate) const DEMAND_MODE: Setting = Setting {
    cell: 2,
    position: 24,
    width: 2,
    allowed: Allowed::Span(1, 2),
    initial: 1,
};

pub(crate) const MAXIMUM_RESET: Setting = Setting {
    cell: 3,
    position: 26,
    width: 2,
    allowed: Allowed::Span(0, 1),
    initial: 0,
};

pub(crate) const CONTRACT_NUMBER: Setting = Setting {
    cell: 4,
    position: 28,
    width: 10,
    allowed: Allowed::ContractText,
    initial: b' ' as u16,
};

pub(crate) const CT_RATIO: Setting = Setting {
    cell: 14,
    position: 40,
    width: 5,
    allowed: Allowed::CtRatio,
    initial: 1,
};

pub(crate) const COMBINED_RATIO: Setting = Setting {
    cell: 15,
    position: 45,
    width: 5,
    allowed: Allowed::Span(0, 9999),
    initial: 0,
};

pub(crate) const CORRECTION: Setting = Setting {
    cell: 16,
    position: 50,
    width: 5,
    allowed: Allowed::Span(1, 200),
    initial: 100,
};

pub(crate) const METER_DAY: Setting = Setting {
    cell: 17,
    position: 55,
    width: 5,
    allowed: Allowed::Span(1, 28),
    initial: 1,
};

pub(crate) const NO_PULSE_WAIT: Setting = Setting {
    cell: 18,
    position: 60,
    width: 5,
    allowed: Allowed::Span(0, 9999),
    initial: 600,
};

pub(crate) const CAUTION_2: Setting = Setting {
    cell: 19,
    position: 95,
    width: 5,
    allowed: Allowed::Span(0, 9999),
    initial: 9999,
};

pub(crate) const LIMIT_2: Setting = Setting {
    cell: 20,
    position: 100,
    width: 5,
    allowed: Allowed::Span(0, 9999),
    initial: 9999,
};

pub(crate) const MASK_2: Setting = Setting {
    cell: 21,
    position: 105,
    width: 5,
    allowed: Allowed::Span(0, 30),
    initial: 1,
};

pub(crate) const CAUTION_3: Setting = Setting {
    cell: 22,
    position: 115,
    width: 5,
    allowed: Allowed::Span(0, 9999),
    initial: 9999,
};

pub(crate) const ALERT_3: Setting = Setting {
    cell: 23,
    position: 120,
    width: 5,
    allowed: Allowed::Span(0, 9999),
    initial: 9999,
};

pub(crate) const LIMIT_3: Setting = Setting {
    cell: 24,
    position: 125,
    width: 5,
    allowed: Allowed::Span(0, 9999),
    initial: 9999,
};

pub(crate) const MASK_3: Setting = Setting {
    cell: 25,
    position: 130,
    width: 5,
    allowed: Allowed::Span(1, 30),
    initial: 1,
};

pub(crate) const ON_HOLD: Setting = Setting {
    cell: 26,
    position: 135,
    width: 5,
    allowed: Allowed::Span(0, 9999),
    initial: 0,
};

pub(crate) const OFF_HOLD: Setting = Setting {
    cell: 27,
    position: 140,
    width: 5,
    allowed: Allowed::Span(0, 9999),
    initial: 0,
};

static SETTINGS: [Setting; 19] = [
    PULSE_TYPE,
    SYNC_TYPE,
    DEMAND_MODE,
    MAXIMUM_RESET,
    CONTRACT_NUMBER,
    CT_RATIO,
    COMBINED_RATIO,
    CORRECTION,
    METER_DAY,
    NO_PULSE_WAIT,
    CAUTION_2,
    LIMIT_2,
    MASK_2,
    CAUTION_3,
    ALERT_3,
    LIMIT_3,
    MASK_3,
    ON_HOLD,
    OFF_HOLD,
];

fn all_rows() -> &'static [Setting]
    ensures { result.now ≡ rows }
{
    &SETTINGS
}

// The table. Its rows name every cell of a page once; with the clock, the two digits behind the contract number and
// the runs that hold F, their fields cover positions 8 to 250 once; what a page holds at first is allowed.
pub fn settings() -> &'static [Setting]
    ensures same { result.now ≡ table }
    ensures within { AllByRecursion Within result.now }
    ensures cells_once { cells_in result.now ≡ range_with_len 0 28 }
    ensures positions_once { covered_once result.now ≡ true }
    ensures initials_allowed { initials_allowed result.now ≡ true }
    ensures initials_in_order { limits_in_order initial_page ≡ true }
{
    all_rows()
}

impl Setting {
    // How many cells the setting has: a text one for each octet, a number one.
    fn cells(&self) -> usize
        ensures { result ≡ cells_of self.now }
    {
        match self.allowed {
            Allowed::ContractText => self.width,
            Allowed::Span(_, _) | Allowed::CtRatio => 1,
        }
    }

    // Puts what the setting is at first into its cells.
    fn put_initial(&self, page: &mut Page)
        requires { Within self.now }
        ensures { page.new ≡ with_initial page.old self.now }
    {
        let end = self.cell + self.cells();
        page[self.cell..end].fill(self.initial);
    }
}

// A page as it is at first.
pub fn initial_page() -> Page
    ensures { result ≡ initial_page }
{
    let mut page = [0; CELLS];
    for setting in settings() {
        setting.put_initial(&mut page);
    }
    page
}
