// Texts with the decimals that they spell, and with their faults, worked out from the rule by hand.
use dec_text::DecFault;

// Without exponent.
pub fn plain_decimals() -> &'static [(&'static str, bool, u64, u8)] {
    &[
        ("0", false, 0, 0),
        ("00", false, 0, 0),
        ("7", false, 7, 0),
        ("+7", false, 7, 0),
        ("-7", true, 7, 0),
        ("5.", false, 5, 0),
        (".5", false, 5, 1),
        ("-.5", true, 5, 1),
        ("0.10", false, 1, 1),
        ("+5.50", false, 55, 1),
        ("12.340", false, 1234, 2),
        ("405504.0000", false, 405504, 0),
        ("5153.636719", false, 5153636719, 6),
        ("0.9601357400", false, 96013574, 8),
        ("1002003.00400", false, 1002003004, 3),
        ("-0", false, 0, 0),
        ("-0.000", false, 0, 0),
        ("+000.000", false, 0, 0),
        ("0000000000000000000000000000001", false, 1, 0),
        ("-00000000000000000000000.25", true, 25, 2),
        ("12345678901234567.8", false, 123456789012345678, 1),
        ("999999999999999999", false, 999999999999999999, 0),
        ("-999999999999999999", true, 999999999999999999, 0),
        ("0.000000000000000000000000000001", false, 1, 30),
        ("0.0000000000000000000000000000010", false, 1, 30),
    ]
}

// With an exponent.
pub fn decimals_with_exponents() -> &'static [(&'static str, bool, u64, u8)] {
    &[
        ("1E3", false, 1000, 0),
        ("1e3", false, 1000, 0),
        ("1E+3", false, 1000, 0),
        ("1E-3", false, 1, 3),
        ("1E1", false, 10, 0),
        ("1E01", false, 10, 0),
        ("1E001", false, 10, 0),
        ("1.E1", false, 10, 0),
        (".1e+000", false, 1, 1),
        ("10E0", false, 10, 0),
        ("-1.5E-0", true, 15, 1),
        ("25.e-1", false, 25, 1),
        ("90.0E2", false, 9000, 0),
        ("-5.50e+1", true, 55, 0),
        ("12.50E-3", false, 125, 4),
        ("0.1086759567E-001", false, 1086759567, 11),
        ("-0.8126052768E-008", true, 8126052768, 18),
        ("0.1296372856E+001", false, 1296372856, 9),
        ("0.0000000000E+000", false, 0, 0),
        ("0E999", false, 0, 0),
        ("-.0e-999", false, 0, 0),
        ("1E17", false, 100000000000000000, 0),
        ("0.001E20", false, 100000000000000000, 0),
        ("1E-30", false, 1, 30),
        ("10E-31", false, 1, 30),
        ("100E-032", false, 1, 30),
        ("9.99999999999999999E-13", false, 999999999999999999, 30),
        ("100000000000000000000000000E-20", false, 1000000, 0),
        ("1000000000000000000000000000E-27", false, 1, 0),
        ("1230000000000000000000000E-7", false, 123000000000000000, 0),
    ]
}

// The bad byte of a text, at a sign or a point.
pub fn bad_signs_and_points() -> &'static [(&'static str, usize)] {
    &[
        ("+", 1),
        ("-", 1),
        (".", 1),
        ("+.", 2),
        ("-.", 2),
        ("+-1", 1),
        ("--1", 1),
        ("1+1", 1),
        ("1-", 1),
        ("..1", 1),
        ("1..2", 2),
        ("1.2.3", 3),
        ("1.5.", 3),
        (".E1", 1),
        ("-E1", 1),
    ]
}

// The bad byte of a text, in an exponent.
pub fn bad_exponents() -> &'static [(&'static str, usize)] {
    &[
        ("E5", 0),
        ("e", 0),
        ("1E", 2),
        ("1.e", 3),
        (".5e", 3),
        ("1E+", 3),
        ("1E-", 3),
        ("1E+-2", 3),
        ("1EE1", 2),
        ("1E1E1", 3),
        ("1E.5", 2),
        ("1E1.5", 3),
        ("1E1234", 5),
        ("1E+1234", 6),
        ("5E-0031", 6),
        ("1e 5", 2),
        ("1e5 ", 3),
        ("1e+0a", 4),
    ]
}

// The bad byte of a text, where it is none that a spelling has.
pub fn other_bad_bytes() -> &'static [(&'static str, usize)] {
    &[
        ("12a", 2),
        ("x", 0),
        (" 1", 0),
        ("1 ", 1),
        ("\t1", 0),
        ("1\n", 1),
        ("/", 0),
        (":", 0),
        ("1/", 1),
        ("1:", 1),
        ("0x10", 1),
        ("1_000", 1),
        ("1,000", 1),
        ("1D2", 1),
        ("1F2", 1),
        ("NaN", 0),
        ("inf", 0),
        ("-inf", 1),
        ("12345678901234567890123x", 23),
        ("\0", 0),
        ("1\0", 1),
        ("1E1\0", 3),
        ("\u{bd}", 0),
        ("1\u{e9}", 1),
        ("\u{2212}1", 0),
        ("\u{ff11}", 0),
    ]
}

// Spellings that pass a bound.
pub fn unbounded_decimals() -> &'static [(&'static str, DecFault)] {
    &[
        ("1234567890123456789", DecFault::TooManyDigits),
        ("12345678901234567890", DecFault::TooManyDigits),
        ("1000000000000000001", DecFault::TooManyDigits),
        ("1000000000000000000", DecFault::TooManyDigits),
        ("1E18", DecFault::TooManyDigits),
        ("-1E18", DecFault::TooManyDigits),
        ("0.1E19", DecFault::TooManyDigits),
        ("1E999", DecFault::TooManyDigits),
        ("1000000000000000000.1", DecFault::TooManyDigits),
        ("1234567890123456789E-1", DecFault::TooManyDigits),
        ("1234567890123456789E-99", DecFault::TooManyDigits),
        ("1E-31", DecFault::TooManyPlaces),
        ("-1E-31", DecFault::TooManyPlaces),
        ("1E-999", DecFault::TooManyPlaces),
        ("1.5E-30", DecFault::TooManyPlaces),
        ("123456789012345678E-31", DecFault::TooManyPlaces),
        ("0.0000000000000000000000000000001", DecFault::TooManyPlaces),
    ]
}
