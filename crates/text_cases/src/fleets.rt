// Files of routes, and the first lines of blocks.
use fleet_text::{excess_separator, push_head, split_route};
use std::alloc::Global;
use std::test::Fail;

// The routes of a file, each ended by a `|`.
fn routes(alloc: Global, text: &[u8]) -> Result<Vec<u8>, Fail> {
    let mut joined = Vec::new(alloc);
    let mut rest = text;
    for _ in 0..100 {
        let (route, after) = split_route(rest);
        joined.extend_from_slice(route)?;
        joined.extend_from_slice(b"|")?;
        let Some(next) = after else {
            return Ok(joined);
        };
        rest = next;
    }
    Err(Fail::from("more than 100 routes"))
}

#[test]
fn lines_of_three_hyphens_part_routes(rt: HostRuntime) -> Result<(), Fail> {
    let alloc = rt.alloc();
    let rows: [(&[u8], &[u8]); 17] = [
        (b"", b"|"),
        (b"a", b"a|"),
        (b"a\n", b"a\n|"),
        (b"---", b"||"),
        (b"---\n", b"||"),
        (b"---\n\n", b"|\n|"),
        (b"a\n---\nb", b"a\n|b|"),
        (b"a\n---\nb\n---\n", b"a\n|b\n||"),
        (b"---\n---\n---\n", b"||||"),
        (b"a\n \t---\t \nb\n", b"a\n|b\n|"),
        (b"a\r\n---\r\nb\r\n", b"a\r\n|b\r\n|"),
        // A carriage return that no line feed follows is a byte of its line, and so is a second one.
        (b"a\n---\r", b"a\n---\r|"),
        (b"a\n---\r\r\nb", b"a\n---\r\r\nb|"),
        // Other hyphens, and hyphens with a word, part nothing.
        (
            b"a\n--\n----\n- - -\n--- b\n",
            b"a\n--\n----\n- - -\n--- b\n|",
        ),
        (b"a---\nb", b"a---\nb|"),
        (b"a\n\n\n---\n\nb", b"a\n\n\n|\nb|"),
        (b"\xff\n---\n\x00", b"\xff\n|\x00|"),
    ];
    for (text, wanted) in rows {
        assert_eq!(rt; routes(alloc, text)?.as_slice(), wanted, "{text:?}");
        assert_eq!(rt; excess_separator(text), None);
    }
    Ok(())
}

#[test]
fn the_64th_separator_is_one_too_many(rt: HostRuntime) -> Result<(), Fail> {
    let alloc = rt.alloc();
    let mut text = Vec::new(alloc);
    for _ in 0..63 {
        text.extend_from_slice(b"a\n---\n\n")?;
    }
    assert_eq!(rt; excess_separator(&text), None);
    assert_eq!(rt;
        routes(alloc, &text)?.iter().filter(|b| **b == b'|').count(),
        64
    );
    text.extend_from_slice(b"a\n ---")?;
    assert_eq!(rt; excess_separator(&text), Some(191));
    text.extend_from_slice(b"\n---\n")?;
    assert_eq!(rt; excess_separator(&text), Some(191));
    Ok(())
}

#[test]
fn a_block_has_its_number(rt: HostRuntime) -> Result<(), Fail> {
    let alloc = rt.alloc();
    let mut text = b"a\n".to_vec(alloc)?;
    push_head(&mut text, 1)?;
    push_head(&mut text, 64)?;
    assert_eq!(rt; text.as_slice(), b"a\nroute 1\nroute 64\n".as_slice());
    Ok(())
}
