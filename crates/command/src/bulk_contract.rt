// The contract number in a bulk write, with the two digits behind it.
ghost use Rattle.std.specs.Prelude.{◌≡◌, ◌≤◌, length};
ghost use Rattle.std.specs.Result.{result_map_both};
ghost use Rattle.command.specs.Bulk.{with_text, tail_asked, contract_read};

use crate::bulk_field::{LENGTH, all_f, field_at};
use crate::contract::is_contract_text;
use crate::fault::Fault;
use crate::field::number_at;
use crate::settings::CONTRACT_NUMBER;
use memory::CELLS;

const TEXT_POSITION: u8 = 28;

const TAIL_POSITION: u8 = 38;

// Sets the cells of the contract number to the octets of a text.
fn put_text(cells: &mut [Option<u16>; CELLS], text: &[u8])
    requires { length text.now ≤ 10 }
    ensures { cells.new ≡ with_text cells.old 4 text.now }
{
    // Kept: tried through `cells.iter_mut().skip(..).zip(text)`, where no invariant of the loop can name the cells.
    for (index, octet) in text.iter().enumerate() {
        cells[CONTRACT_NUMBER.cell + index] = Some(*octet as u16);
    }
}

// The two digits behind the contract number: 00, or FF too where the number is left as it is.
fn tail_asked(left: bool, high: u8, low: u8) -> Result<(), Fault>
    ensures { result ≡ tail_asked left high low }
{
    let number = number_at(TAIL_POSITION, high, low)?;
    if number == 0 || left && number == 0xff {
        Ok(())
    } else {
        Err(Fault::WrongValue {
            position: TAIL_POSITION,
        })
    }
}

// Sets the cells of the contract number, unless its field holds F everywhere.
pub(crate) fn read_contract(
    content: &[u8; LENGTH],
    cells: &mut [Option<u16>; CELLS],
) -> Result<(), Fault>
    ensures { result_map_both (λ _. cells.new) (λ e. e) result ≡ contract_read content.now cells.old }
{
    let text = field_at(content, CONTRACT_NUMBER.position, CONTRACT_NUMBER.width);
    let tail = field_at(content, TAIL_POSITION as usize, 2);
    let left = all_f(text);
    if !left && !is_contract_text(text) {
        return Err(Fault::WrongOctets {
            position: TEXT_POSITION,
        });
    }
    tail_asked(left, tail[0], tail[1])?;
    if !left {
        put_text(cells, text);
    }
    Ok(())
}
