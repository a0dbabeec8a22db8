// The order of the limits on a page.
ghost use Rattle.std.specs.Prelude.{◌≡◌};
ghost use Rattle.command.specs.Stages.{limits_asked};

use crate::fault::Fault;
use crate::settings::{ALERT_3, CAUTION_2, CAUTION_3, LIMIT_2, LIMIT_3, Page};

// The limits of two stages are asked before those of three.
pub(crate) fn limits_asked(page: &Page) -> Result<(), Fault>
    ensures { result ≡ limits_asked page.now }
{
    if page[CAUTION_2.cell] > page[LIMIT_2.cell] {
        return Err(Fault::TwoStagesOutOfOrder);
    }
    if page[CAUTION_3.cell] > page[ALERT_3.cell] || page[ALERT_3.cell] > page[LIMIT_3.cell] {
        return Err(Fault::ThreeStagesOutOfOrder);
    }
    Ok(())
}
