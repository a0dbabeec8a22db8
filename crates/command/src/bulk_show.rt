// The settings and the clock of a station, as they are sent.
ghost use Rattle.std.specs.Prelude.{◌≡◌, ◌+◌, ◌≤◌, ◌++◌, replicate};
ghost use Rattle.arrayvec.specs.ArrayVec.{array_vec_len};
ghost use Rattle.calendar.specs.Moment.{moment_of};
ghost use Rattle.command.specs.Gathered.{gathered};
ghost use Rattle.command.specs.Parts.{digit_count, LawfulPart, width_of};
ghost use Rattle.command.specs.Shown.{number_shown, contract_shown, part_shown, settings_shown};

use crate::bulk_field::LENGTH;
use crate::content::{Content, push_octets};
use crate::gather::show_text;
use crate::parts::{Part, parts};
use crate::settings::{CONTRACT_NUMBER, Page};
use calendar::date_time::DateTime;
use frame::digits::{four_digits, two_digits};

// The width of a short field; a long one has five digits.
const TWO_DIGITS: usize = 2;

// The digits of a number in a field of two or of five; the low ones are kept.
// Kept: no enum of the two, since the width stands in the table of settings and tells it.
fn push_number(content: &mut Content, width: usize, number: u16)
    requires { array_vec_len content.old + digit_count width ≤ 556 }
    ensures { gathered content.new ≡ gathered content.old ++ number_shown width number }
{
    if width == TWO_DIGITS {
        push_octets(content, &two_digits((number % 256) as u8));
    } else {
        push_octets(content, b"0");
        push_octets(content, &four_digits(number));
    }
}

// The characters of the contract number, and the two digits behind it.
fn push_contract(content: &mut Content, page: &Page)
    requires { array_vec_len content.old + 12 ≤ 556 }
    ensures { gathered content.new ≡ gathered content.old ++ contract_shown page.now }
{
    let start = CONTRACT_NUMBER.cell;
    let end = start + CONTRACT_NUMBER.width;
    let text = show_text(&page[start..end]);
    push_octets(content, text.as_slice());
    push_octets(content, b"00");
}

// A run of F.
fn push_run(content: &mut Content, width: usize)
    requires room { array_vec_len content.old + width ≤ 556 }
    requires short { width ≤ 243 }
    ensures { gathered content.new ≡ gathered content.old ++ replicate width 70 }
{
    push_octets(content, &[b'F'; LENGTH][0..width]);
}

fn push_part(content: &mut Content, page: &Page, part: Part)
    requires room { array_vec_len content.old + width_of part ≤ 556 }
    requires lawful { LawfulPart part }
    ensures { gathered content.new ≡ gathered content.old ++ part_shown page.now part }
{
    match part {
        Part::Number(setting) => push_number(content, setting.width, page[setting.cell]),
        Part::Contract => push_contract(content, page),
        Part::Blank { position: _, width } => push_run(content, width),
    }
}

// The clock, and each part in the order of positions.
pub(crate) fn show_settings(clock: DateTime, page: &Page) -> Content
    ensures { gathered result ≡ settings_shown (moment_of clock) page.now }
{
    let mut content = Content::new();
    push_octets(&mut content, &clock.digits());
    for part in parts() {
        push_part(&mut content, page, *part);
    }
    content
}
