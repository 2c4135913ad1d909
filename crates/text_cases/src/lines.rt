// Lines, words, labels and numbers of small texts.
use raim_model::TextWhy;
use std::alloc::Global;
use std::process::Abort;
use std::test::Fail;
use text_lines::*;

fn expect_lines(
    rt: &impl Abort,
    alloc: Global,
    text: &[u8],
    expected: &[&[u8]],
) -> Result<(), Fail> {
    let mut lines = Vec::new(alloc);
    let mut rest = text;
    while let Some((line, after)) = next_line(rest) {
        lines.push(line)?;
        rest = after;
    }
    assert_eq!(rt; lines.len(), expected.len(), "{text:?}");
    for (line, wanted) in lines.iter().zip(expected) {
        assert_eq!(rt; *line, *wanted, "{text:?}");
    }
    Ok(())
}

#[test]
fn lines_end_at_line_feeds(rt: HostRuntime) -> Result<(), Fail> {
    let alloc = rt.alloc();
    expect_lines(&rt, alloc, b"", &[])?;
    expect_lines(&rt, alloc, b"a", &[b"a"])?;
    expect_lines(&rt, alloc, b"a\n", &[b"a"])?;
    expect_lines(&rt, alloc, b"a\n\nb", &[b"a", b"", b"b"])?;
    expect_lines(&rt, alloc, b"\n", &[b""])?;
    // One carriage return is dropped before a line feed, and nowhere else.
    expect_lines(&rt, alloc, b"a\r\nb\r", &[b"a", b"b\r"])?;
    expect_lines(&rt, alloc, b"a\r\r\n\r\n\r", &[b"a\r", b"", b"\r"])?;
    expect_lines(&rt, alloc, b"a\rb\n \t \n", &[b"a\rb", b" \t "])
}

#[test]
fn words_stand_between_blanks(rt: HostRuntime) {
    assert_eq!(rt; next_word(b" \t "), None);
    assert_eq!(rt;
        next_word(b" ab\tc "),
        Some((b"ab".as_slice(), b"\tc ".as_slice()))
    );
    assert_eq!(rt;
        next_word(b"a\r"),
        Some((b"a\r".as_slice(), b"".as_slice()))
    );
    assert_eq!(rt; only_word(b"\ta "), Some(b"a".as_slice()));
    assert_eq!(rt; only_word(b"a b"), None);
    assert_eq!(rt; only_word(b""), None);
    assert_eq!(rt;
        four_words(b" a\tb c d "),
        Some((
            b"a".as_slice(),
            b"b".as_slice(),
            b"c".as_slice(),
            b"d".as_slice()
        ))
    );
    assert_eq!(rt; four_words(b"a b c"), None);
    assert_eq!(rt; four_words(b"a b c d e"), None);
}

#[test]
fn labels_end_at_the_first_colon(rt: HostRuntime) {
    assert_eq!(rt;
        split_label(b" a b : c:d"),
        Some((b" a b ".as_slice(), b" c:d".as_slice()))
    );
    assert_eq!(rt; split_label(b":"), Some((b"".as_slice(), b"".as_slice())));
    assert_eq!(rt; split_label(b"a b"), None);
    for (label, is_it) in [
        (b"SQRT(A)  (m 1/2)".as_slice(), true),
        (b" s q r t ( a )".as_slice(), true),
        (b"sqrt(a".as_slice(), false),
        (b"xsqrt(a)".as_slice(), false),
        (b"sqrt[a]".as_slice(), false),
        (b"".as_slice(), false),
    ] {
        assert_eq!(rt; is_label(b"sqrt(a)", label), is_it, "{label:?}");
    }
    assert_eq!(rt; read_labelled(b"id", b"ID: 7"), Ok(b" 7".as_slice()));
    assert_eq!(rt; read_labelled(b"id", b"ID 7"), Err(TextWhy::Label));
}

#[test]
fn whole_numbers_are_one_to_ten_digits(rt: HostRuntime) {
    assert_eq!(rt; read_whole_number(b"0"), Some(0));
    assert_eq!(rt; read_whole_number(b"0000000007"), Some(7));
    assert_eq!(rt; read_whole_number(b"9999999999"), Some(9_999_999_999));
    for text in [
        b"".as_slice(),
        b"10000000000",
        b"+1",
        b"-1",
        b"1 ",
        b"1.0",
        b"\xd9\xa1",
    ] {
        assert_eq!(rt; read_whole_number(text), None, "{text:?}");
    }
    assert_eq!(rt;
        read_number(b"9999999999999999999", 19),
        Some(9_999_999_999_999_999_999)
    );
    assert_eq!(rt; read_number(b"", 19), None);
    assert_eq!(rt; read_whole_value(b" 032\t", 1, 32), Ok(32));
    assert_eq!(rt; read_whole_value(b" 33", 1, 32), Err(TextWhy::Range));
    assert_eq!(rt; read_whole_value(b" 3 2", 1, 32), Err(TextWhy::Number));
    assert_eq!(rt; read_whole_in(b"0", 1, 32), Err(TextWhy::Range));
    assert_eq!(rt; read_whole(b"033"), Ok(33));
    assert_eq!(rt; read_whole(b"33."), Err(TextWhy::Number));
    assert_eq!(rt; check_in(32, 1, 32), Ok(32));
    assert_eq!(rt; check_in(33, 1, 32), Err(TextWhy::Range));
}

#[test]
fn lines_are_counted(rt: HostRuntime) {
    let mut count = LineCount::new();
    assert_eq!(rt; count.next(), 1);
    count.pass();
    count.skip();
    assert_eq!(rt;
        count,
        LineCount {
            lines: 2,
            last_nonblank: 1
        }
    );
    assert_eq!(rt; count.next(), 3);
    // A number past the last one stays.
    let mut last = LineCount {
        lines: u32::MAX,
        last_nonblank: 7,
    };
    last.skip();
    assert_eq!(rt; last.last_nonblank, 7);
    last.pass();
    assert_eq!(rt; last.last_nonblank, u32::MAX);
    assert_eq!(rt; last.next(), u32::MAX);
}

#[test]
fn texts_are_split_at_the_first_line_feed(rt: HostRuntime) {
    assert_eq!(rt; split_at_feed(b""), None);
    assert_eq!(rt; split_at_feed(b"a\r"), None);
    for (text, line, rest) in [
        (b"\n".as_slice(), b"".as_slice(), b"".as_slice()),
        (b"a\nb", b"a", b"b"),
        (b"a\r\n\nb", b"a\r", b"\nb"),
    ] {
        match split_at_feed(text) {
            Some((found, after)) => {
                assert_eq!(rt; found, line);
                assert_eq!(rt; after, rest);
            }
            None => assert!(rt; false, "{text:?}"),
        }
    }
    assert_eq!(rt; without_carriage_return(b""), b"".as_slice());
    assert_eq!(rt; without_carriage_return(b"a\r"), b"a".as_slice());
    assert_eq!(rt; without_carriage_return(b"a\r\r"), b"a\r".as_slice());
    assert_eq!(rt; without_carriage_return(b"\ra"), b"\ra".as_slice());
}

#[test]
fn a_bounded_list_takes_what_it_has_room_for(rt: HostRuntime) -> Result<(), Fail> {
    let mut list: BoundedVec<u8, 2> = BoundedVec::new(rt.alloc())?;
    list.push(7);
    assert_eq!(rt; list.try_push(8), true);
    assert_eq!(rt; list.try_push(9), false);
    assert_eq!(rt; list.as_slice(), [7, 8].as_slice());
    let list = list.into_vec();
    assert_eq!(rt; list.as_slice(), [7, 8].as_slice());
    Ok(())
}
