// The parts of a bulk write behind the clock, in the order of their positions.
ghost use Rattle.std.specs.Prelude.{◌≡◌, true};
ghost use Rattle.std.specs.List.{AllByRecursion};
ghost use Rattle.command.specs.Parts.{listed, parts, LawfulPart, widths, one_behind_another};

use crate::setting::Setting;
use crate::settings::{
    ALERT_3, CAUTION_2, CAUTION_3, COMBINED_RATIO, CORRECTION, CT_RATIO, DEMAND_MODE, LIMIT_2,
    LIMIT_3, MASK_2, MASK_3, MAXIMUM_RESET, METER_DAY, NO_PULSE_WAIT, OFF_HOLD, ON_HOLD,
    PULSE_TYPE, SYNC_TYPE,
};

// A part of a bulk write. Positions count from 1 at ENQ.
// Kept: that a part is lawful is asked where it is used, since an enum has no ghost field.
#[derive(Clone, Copy)]
pub(crate) enum Part {
    // a setting that is one number
    Number(Setting),
    // the contract number and the two digits behind it
    Contract,
    // a run that holds F everywhere
    Blank { position: usize, width: usize },
}

static PARTS: [Part; 22] = [
    Part::Number(PULSE_TYPE),
    Part::Number(SYNC_TYPE),
    Part::Number(DEMAND_MODE),
    Part::Number(MAXIMUM_RESET),
    Part::Contract,
    Part::Number(CT_RATIO),
    Part::Number(COMBINED_RATIO),
    Part::Number(CORRECTION),
    Part::Number(METER_DAY),
    Part::Number(NO_PULSE_WAIT),
    Part::Blank {
        position: 65,
        width: 30,
    },
    Part::Number(CAUTION_2),
    Part::Number(LIMIT_2),
    Part::Number(MASK_2),
    Part::Blank {
        position: 110,
        width: 5,
    },
    Part::Number(CAUTION_3),
    Part::Number(ALERT_3),
    Part::Number(LIMIT_3),
    Part::Number(MASK_3),
    Part::Number(ON_HOLD),
    Part::Number(OFF_HOLD),
    Part::Blank {
        position: 145,
        width: 106,
    },
];

fn all_parts() -> &'static [Part]
    ensures { result.now ≡ listed }
{
    &PARTS
}

// The table of parts: from position 20, behind the clock, to 250, each begins where the one before it ends.
pub(crate) fn parts() -> &'static [Part]
    ensures same { result.now ≡ parts }
    ensures lawful { AllByRecursion LawfulPart result.now }
    ensures one_behind_another { one_behind_another 20 result.now ≡ true }
    ensures widths { widths result.now ≡ 231 }
{
    all_parts()
}
