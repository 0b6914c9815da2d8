// Texts and whole numbers as decimals.
use crate::compare::expect;
use fixed_decimal::{Decimal, DecimalFault};

fn millionths(found: Result<Decimal, DecimalFault>) -> Result<i64, DecimalFault> {
    match found {
        Ok(decimal) => Ok(decimal.millionths),
        Err(fault) => Err(fault),
    }
}

#[test]
fn texts(rt: HostRuntime) {
    for (text, wanted) in [
        ("-0.5", Ok(-500_000)),
        ("-0", Ok(0)),
        ("00012.340", Ok(12_340_000)),
        ("999999.999999", Ok(999_999_999_999)),
        ("-999999.999999", Ok(-999_999_999_999)),
        ("", Err(DecimalFault::Empty)),
        ("-", Err(DecimalFault::BadByte(1))),
        ("--1", Err(DecimalFault::BadByte(1))),
        ("+1", Err(DecimalFault::BadByte(0))),
        (".5", Err(DecimalFault::BadByte(0))),
        ("1.", Err(DecimalFault::BadByte(2))),
        ("1.x", Err(DecimalFault::BadByte(2))),
        ("1.5.5", Err(DecimalFault::BadByte(3))),
        ("1e3", Err(DecimalFault::BadByte(1))),
        ("0.1234567", Err(DecimalFault::TooManyPlaces)),
        ("1000000.0000000", Err(DecimalFault::TooManyPlaces)),
        ("1000000", Err(DecimalFault::TooLarge)),
        (
            "100000000000000000000000000000000000000000",
            Err(DecimalFault::TooLarge),
        ),
    ] {
        assert!(rt; text.len() < 100);
        expect(&rt, millionths(Decimal::parse(text)), wanted, text);
    }
}

#[test]
fn whole_numbers(rt: HostRuntime) {
    for (value, wanted) in [
        (50, Ok(50_000_000)),
        (-999_999, Ok(-999_999_000_000)),
        (1_000_000, Err(DecimalFault::TooLarge)),
        (i64::MIN, Err(DecimalFault::TooLarge)),
    ] {
        expect(
            &rt,
            (value, millionths(Decimal::from_whole(value))),
            (value, wanted),
            "a whole number",
        );
    }
}
