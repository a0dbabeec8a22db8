// The characters of a contract number.
ghost use Rattle.std.specs.Prelude.{◌≡◌};
ghost use Rattle.std.specs.List.{list_all};
ghost use Rattle.command.specs.Table.{contract_octet};
ghost use Rattle.command.specs.Readings.{sent_octet};

// A capital, a digit, a space or a hyphen.
pub(crate) fn is_contract_octet(octet: u8) -> bool
    ensures { result ≡ contract_octet octet }
{
    matches!(octet, b'A'..=b'Z' | b'0'..=b'9' | b' ' | b'-')
}

// Whether a value is such a character.
pub(crate) fn is_contract_value(value: u32) -> bool
    ensures { result ≡ contract_octet value }
{
    u8::try_from(value).is_ok_and(is_contract_octet)
}

pub(crate) fn is_contract_text(field: &[u8]) -> bool
    ensures { result ≡ list_all contract_octet field.now }
{
    field.iter().all(|octet| is_contract_octet(*octet))
}

// A cell of the contract number as it is sent.
pub(crate) fn sent_octet(cell: u16) -> u8
    ensures { result ≡ sent_octet cell }
{
    match u8::try_from(cell) {
        Ok(octet) if is_contract_octet(octet) => octet,
        _ => b' ',
    }
}
