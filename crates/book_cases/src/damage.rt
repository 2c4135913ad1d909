// Databases that hold what no book has.

use crate::running::{files, kept_anew};
use std::test::Fail;

// A line an entry: its number, satellite, start and end.
const BAD_ENTRIES: &str = "\
1, 0, 0, null
1, 33, 0, null
1, 256, 0, null
1, -1, 0, null
1, 4294967301, 0, null
1, 'five', 0, null
1, 5, -1, null
1, 5, 253086336000000, null
1, 5, 1.5, null
1, 5, 0, 0
1, 5, 7, 6
1, 5, 0, 253086336000000
1, 5, 0, 'never'
4294967296, 5, 0, null
";

const BAD_NUMBERS: [&str; 3] = ["-1", "4294967296", "9223372036854775807"];

// Tables that are not those of a book, and a transaction that someone began.
const OTHERS: [&str; 5] = [
    "drop table notice;database create table notice (id integer primary key)",
    "drop table notice;database create table notice (number integer primary key)",
    "drop table live;database create table live (number integer primary key, prn integer)",
    "drop table live;database create view live as select number, prn, start_ms, end_ms from notice",
    "begin",
];

const FAULT: &str = "ok\n3\nnotice: keeper fault\n";

#[test]
fn what_no_book_has_is_a_fault(rt: HostRuntime) -> Result<(), Fail> {
    let alloc = rt.alloc();
    let mut count = 0u8;
    for row in BAD_ENTRIES.lines() {
        let script = format!(in alloc;
            "keeper start;database insert into live (number, prn, start_ms, end_ms) values ({row});notice b list"
        )?;
        let said = kept_anew(alloc, script.as_str(), files("", ""))?;
        assert_eq!(rt; said.as_str(), FAULT, "{row}");
        count = count.saturating_add(1);
    }
    assert_eq!(rt; count, 14);
    for number in BAD_NUMBERS {
        let script = format!(in alloc;
            "keeper start;database insert into notice values ({number}, 0, 0, 5, 0, null);notice b add 7 5 D -"
        )?;
        let said = kept_anew(alloc, script.as_str(), files("", ""))?;
        assert_eq!(rt; said.as_str(), FAULT, "{number}");
    }
    for other in OTHERS {
        let script = format!(in alloc; "keeper start;database {other};notice b add 1 5 D -")?;
        let said = kept_anew(alloc, script.as_str(), files("", ""))?;
        assert_eq!(rt; said.as_str(), FAULT, "{other}");
    }
    Ok(())
}

// A notice whose entry cannot be put is not held either. The greatest number of a notice is that of the notices, and not of the
// entries; there is no table before `start`, and a second `start` takes nothing away.
const SCRIPTS: [(&str, &str); 2] = [
    (
        "keeper start;database drop table live;database create table live (number integer primary key check (number < 5), prn integer not null, start_ms integer not null, end_ms integer);notice b add 4 5 A -;notice b add 5 5 A -;notice b list;notice b cancel 5 4;notice b list",
        "ok\n0\n3\nnotice: keeper fault\n0\n05 1980-01-06T00:00:00.000Z -\n0\n0\n",
    ),
    (
        "keeper last;keeper start;keeper last;keeper count;notice b add 2 7 B -;notice b cancel 3 2;notice b add 4294967295 5 B -;keeper start;keeper last;keeper count;keeper find 3;keeper find 4294967295;keeper next 3;keeper next 4294967295",
        "failed\nok\n0\n0\n0\n0\n0\nok\n4294967295\n1\nnone\n4294967295\n4294967295\nnone\n",
    ),
];

#[test]
fn a_keeper_answers_what_its_tables_hold(rt: HostRuntime) -> Result<(), Fail> {
    for (script, wanted) in SCRIPTS {
        let said = kept_anew(rt.alloc(), script, files("", ""))?;
        assert_eq!(rt; said.as_str(), wanted);
    }
    Ok(())
}
