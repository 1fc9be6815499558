//! Numbers and texts that are none.
use rail_base::{natural_within, put_number, read_count, read_digits, read_field, read_number};
use std::test::Fail;

#[test]
fn numbers_are_read(rt: HostRuntime) -> Result<(), Fail> {
    const NUMBERS: &[(&[u8], i64)] = &[
        (b"0", 0),
        (b"-0", 0),
        (b"+7", 7),
        (b"  12 ", 12),
        (b"007", 7),
        (b" -1000", -1000),
        (b"999999999999999999", 999_999_999_999_999_999),
        (b"-999999999999999999", -999_999_999_999_999_999),
    ];
    for &(text, number) in NUMBERS {
        assert!(rt; read_number(text) == Some(number));
    }
    const OTHERS: &[&[u8]] = &[
        b"",
        b" ",
        b"-",
        b"+",
        b"+-1",
        b"1 2",
        b"1.5",
        b"\t1",
        b"1000000000000000000",
    ];
    for text in OTHERS {
        assert!(rt; read_number(text) == None);
    }
    Ok(())
}

#[test]
fn fields_are_read(rt: HostRuntime) -> Result<(), Fail> {
    assert!(rt; read_field(b"-600") == Some(-600));
    assert!(rt; read_field(b"0010") == Some(10));
    assert!(rt; read_field(b"+1") == None);
    assert!(rt; read_field(b" 1") == None);
    assert!(rt; read_field(b"--1") == None);
    assert!(rt; read_count(b"999999999") == Some(999_999_999));
    assert!(rt; read_count(b"0000000001") == None);
    assert!(rt; read_count(b"-1") == None);
    assert!(rt; read_digits(b"4294967295", 10) == Some(4_294_967_295));
    Ok(())
}

#[test]
fn numbers_are_within(rt: HostRuntime) {
    const CASES: &[(i64, Option<u32>)] = &[
        (0, None),
        (1, Some(1)),
        (9, Some(9)),
        (10, None),
        (-5, None),
        (i64::MIN, None),
        (4_294_967_301, None),
    ];
    for &(number, natural) in CASES {
        assert!(rt; natural_within(number, 1, 9) == natural, "{number}");
    }
}

#[test]
fn numbers_are_put(rt: HostRuntime) -> Result<(), Fail> {
    let mut text = Vec::new(rt.alloc());
    put_number(rt.alloc(), &mut text, 6_600_000_000_000)?;
    put_number(rt.alloc(), &mut text, -50)?;
    put_number(rt.alloc(), &mut text, i128::MIN)?;
    assert!(rt;
        text.as_slice() == b"6600000000000-50-170141183460469231731687303715884105728".as_slice()
    );
    Ok(())
}
