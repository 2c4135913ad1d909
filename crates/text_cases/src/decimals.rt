// Spellings with their decimals and faults, and whole numbers.
mod tables;

use dec_text::{DecFault, read_dec, read_whole_number};
use raim_model::Dec;
use std::process::Abort;
use std::test::Fail;
use tables::{
    bad_exponents, bad_signs_and_points, decimals_with_exponents, other_bad_bytes, plain_decimals,
    unbounded_decimals,
};

fn expect_decimals(rt: &impl Abort, rows: &[(&'static str, bool, u64, u8)]) {
    for (text, neg, digits, places) in rows {
        let wanted = Dec {
            neg: *neg,
            digits: *digits,
            places: *places,
        };
        assert_eq!(rt; read_dec(text.as_bytes()), Ok(wanted), "{text:?}");
    }
}

fn expect_bad_bytes(rt: &impl Abort, rows: &[(&'static str, usize)]) {
    for (text, k) in rows {
        assert_eq!(rt;
            read_dec(text.as_bytes()),
            Err(DecFault::BadByte(*k)),
            "{text:?}"
        );
    }
}

#[test]
fn decimals_are_read(rt: HostRuntime) {
    expect_decimals(&rt, plain_decimals());
    expect_decimals(&rt, decimals_with_exponents());
}

#[test]
fn bad_bytes_are_named(rt: HostRuntime) {
    assert_eq!(rt; read_dec(b""), Err(DecFault::Empty));
    expect_bad_bytes(&rt, bad_signs_and_points());
    expect_bad_bytes(&rt, bad_exponents());
    expect_bad_bytes(&rt, other_bad_bytes());
}

#[test]
fn bounds_hold(rt: HostRuntime) {
    for (text, fault) in unbounded_decimals() {
        assert_eq!(rt; read_dec(text.as_bytes()), Err(*fault), "{text:?}");
    }
}

#[test]
fn long_texts_are_read(rt: HostRuntime) -> Result<(), Fail> {
    let alloc = rt.alloc();
    let mut text = vec![in alloc; b'1'; 1_000_000]?;
    assert_eq!(rt; read_dec(&text), Err(DecFault::TooManyDigits));
    text.push(b'x')?;
    assert_eq!(rt; read_dec(&text), Err(DecFault::BadByte(1_000_000)));

    let mut text = vec![in alloc; b'0'; 1_000_000]?;
    text.push(b'1')?;
    let one = Dec::new(false, 1, 0);
    assert_eq!(rt; read_dec(&text), Ok(one));
    text.extend_from_slice(b"E-999")?;
    assert_eq!(rt; read_dec(&text), Err(DecFault::TooManyPlaces));

    let mut text = vec![in alloc; b'0'; 1_000_000]?;
    text[0] = b'.';
    let zero = Dec::ZERO;
    assert_eq!(rt; read_dec(&text), Ok(zero));
    text.extend_from_slice(b"1E+999")?;
    assert_eq!(rt; read_dec(&text), Err(DecFault::TooManyPlaces));
    text[1] = b'1';
    assert_eq!(rt; read_dec(&text), Err(DecFault::TooManyDigits));
    Ok(())
}

#[test]
fn whole_numbers_are_one_to_ten_digits(rt: HostRuntime) {
    for (text, value) in [
        ("0", 0),
        ("12", 12),
        ("123", 123),
        ("1234", 1234),
        ("12345", 12345),
        ("012345", 12345),
        ("1234567", 1_234_567),
        ("12345678", 12_345_678),
        ("000000000", 0),
        ("9999999999", 9_999_999_999),
    ] {
        assert_eq!(rt; read_whole_number(text.as_bytes()), Some(value), "{text:?}");
    }
    for text in [
        "",
        "10000000000",
        "00000000001",
        "+1",
        "-0",
        "1.",
        "1E1",
        " 1",
        "1 ",
        "1\0",
    ] {
        assert_eq!(rt; read_whole_number(text.as_bytes()), None, "{text:?}");
    }
}
