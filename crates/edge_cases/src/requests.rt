// The words of each command.

use command_words::{Request, read_request};
use std::alloc::Global;
use std::test::Fail;

fn texts_of(alloc: Global, words: &[&str]) -> Result<Vec<String>, Fail> {
    let mut texts = Vec::new(alloc);
    for word in words {
        texts.push(String::from_str(alloc, word)?)?;
    }
    Ok(texts)
}

#[test]
fn each_file_has_its_word(rt: HostRuntime) -> Result<(), Fail> {
    let alloc = rt.alloc();
    let asked = Some(Request::Predict {
        limits: "l",
        almanac: "a",
        outages: "o",
        route: "r",
    });
    let lines: [&[&str]; 4] = [
        &["raim", "predict", "l", "a", "o", "r"],
        &["", "predict", "l", "a", "o", "r"],
        &["raim", "predict", "--", "l", "a", "o", "r"],
        &["raim", "predict", "l", "a", "--", "o", "r"],
    ];
    for words in lines {
        let texts = texts_of(alloc, words)?;
        let Ok(found) = read_request(alloc, &texts) else {
            return Err(Fail::from("no memory"));
        };
        assert_eq!(rt; found, asked, "{words:?}");
    }
    Ok(())
}

#[test]
fn a_number_is_from_zero_to_the_greatest(rt: HostRuntime) -> Result<(), Fail> {
    let alloc = rt.alloc();
    let lines: [(&[&str], u32); 6] = [
        (&["raim", "demo", "0"], 0),
        (&["raim", "demo", "345"], 345),
        (&["raim", "demo", "4294967295"], 4_294_967_295),
        (&["raim", "demo", "0000000007"], 7),
        (&["raim", "demo", "+5"], 5),
        (&["raim", "demo", "--", "-0"], 0),
    ];
    for (words, number) in lines {
        let texts = texts_of(alloc, words)?;
        let Ok(found) = read_request(alloc, &texts) else {
            return Err(Fail::from("no memory"));
        };
        assert_eq!(rt; found, Some(Request::Demo { number }), "{words:?}");
    }
    Ok(())
}
