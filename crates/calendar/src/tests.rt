use crate::date_time::DateTime;
use crate::time_fault::TimeFault;
use std::test::Fail;

// What comes one second after the time of twelve digits, as digits.
fn next(digits: &[u8]) -> Result<[u8; 12], TimeFault> {
    Ok(DateTime::read(digits)?.one_second_on().digits())
}

#[test]
fn one_second_on_carries(rt: HostRuntime) {
    assert_eq!(rt; next(b"000228235959"), Ok(*b"000229000000"));
    assert_eq!(rt; next(b"010228235959"), Ok(*b"010301000000"));
    assert_eq!(rt; next(b"991231235959"), Ok(*b"000101000000"));
}

#[test]
fn times_are_read(rt: HostRuntime) {
    assert_eq!(rt; next(b"0001010000"), Err(TimeFault::NotDigits));
    assert_eq!(rt; next(b"00010100000F"), Err(TimeFault::NotDigits));
    assert_eq!(rt; next(b"010229000000"), Err(TimeFault::NoSuchTime));
    assert_eq!(rt; DateTime::new(0, 13, 1, 0, 0, 0), None);
}

#[test]
fn half_hours_end_with_the_century(rt: HostRuntime) -> Result<(), Fail> {
    let last = DateTime::read(b"991231234512")?.half_hour();
    assert_eq!(rt; last.digits(), *b"991231233000");
    assert_eq!(rt; last.next_half_hour(), None);
    Ok(())
}
