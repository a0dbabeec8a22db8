// The data of a bulk write: what it sets.
ghost use Rattle.std.specs.Prelude.{◌≡◌};
ghost use Rattle.std.specs.Result.{result_map_both};
ghost use Rattle.command.specs.Parts.{parts as listed_parts, LawfulNumber, LawfulPart};
ghost use Rattle.command.specs.Bulk.{cell_read, part_read, parts_read, all_left, bulk_view, bulk_of};

use crate::bulk_contract::read_contract;
use crate::bulk_field::{LENGTH, all_f, field_at, read_clock, read_number};
use crate::fault::Fault;
use crate::parts::{Part, parts};
use crate::setting::Setting;
use calendar::date_time::DateTime;
use memory::CELLS;

// The time that the clock is set to, and for each cell of the page the number that it is set to; none where it is
// left as it is.
#[derive(Clone, Copy)]
pub(crate) struct BulkWrite {
    pub(crate) clock: Option<DateTime>,
    pub(crate) cells: [Option<u16>; CELLS],
}

// How many octets of the data are the clock's.
const CLOCK_WIDTH: usize = 12;

// Sets the cell of a number, unless its field holds F everywhere.
fn read_cell(
    content: &[u8; LENGTH],
    setting: Setting,
    cells: &mut [Option<u16>; CELLS],
) -> Result<(), Fault>
    requires { LawfulNumber setting }
    ensures { result_map_both (λ _. cells.new) (λ e. e) result ≡ cell_read content.now setting cells.old }
{
    if let Some(number) = read_number(content, setting)? {
        cells[setting.cell] = Some(number);
    }
    Ok(())
}

// Asks one part, and sets its cells.
// Kept: data and cells go side by side, since a struct of both would owe in each method that the data stay.
fn read_part(
    content: &[u8; LENGTH],
    part: Part,
    cells: &mut [Option<u16>; CELLS],
) -> Result<(), Fault>
    requires { LawfulPart part }
    ensures { result_map_both (λ _. cells.new) (λ e. e) result ≡ part_read content.now part cells.old }
{
    match part {
        Part::Number(setting) => read_cell(content, setting, cells),
        Part::Contract => read_contract(content, cells),
        Part::Blank { position, width } => {
            if all_f(field_at(content, position, width)) {
                Ok(())
            } else {
                Err(Fault::WrongOctets {
                    position: position as u8,
                })
            }
        }
    }
}

// What all parts set, or the first fault.
fn read_parts(content: &[u8; LENGTH]) -> Result<[Option<u16>; CELLS], Fault>
    ensures { result ≡ parts_read content.now all_left listed_parts }
{
    let mut cells = [None; CELLS];
    for part in parts() {
        read_part(content, *part, &mut cells)?;
    }
    Ok(cells)
}

// What the data of a bulk write set, or the first fault: their length is asked first, then the clock, then each part
// in the order of positions.
pub(crate) fn read_bulk(content: &[u8]) -> Result<BulkWrite, Fault>
    ensures { result_map_both bulk_view (λ e. e) result ≡ bulk_of content.now }
{
    let content = <&[u8; LENGTH]>::try_from(content).map_err(|_| Fault::WrongLength)?;
    let clock = read_clock(&content[0..CLOCK_WIDTH])?;
    let cells = read_parts(content)?;
    Ok(BulkWrite { clock, cells })
}
