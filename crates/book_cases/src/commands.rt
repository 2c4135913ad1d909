// Commands in turn over one book, and words that are no command.

use crate::running::{Around, files, kept_anew, kept_in_memory, told};
use crate::texts::{ADD, CANCEL, RESCHEDULE, spelled};
use notice_book::KeepFault;
use std::test::Fail;

// Scripts, and what they say.
const SCRIPTS: [(&str, &str); 4] = [
    (
        "notice b add 1 5 D -;notice b list;notice b move 2 1 D F;notice b list;notice b cancel 2 1;notice b cancel 3 9;notice b cancel 4 1;notice b list;notice b move 5 1 B -",
        "0;0;05 D -;0;0;05 D F;2;notice: refused Old 2;2;notice: refused Unknown;0;0;2;notice: refused Unknown;",
    ),
    (
        "notice b add 0000000007 005 B -;notice b add 7 5 B -;notice b cancel 08 07",
        "0;2;notice: refused Old 7;0;",
    ),
    (
        "notice b file outages;notice b list;notice b file outages;notice b file route;notice b list;notice b cancel 2024064 2024061;notice b list;notice b cancel 2024065 2024061",
        "0;0;05 D F;2;notice: message 1: Old 2024061;0;0;05 E -;0;0;2;notice: refused Unknown;",
    ),
    (
        "notice b file limits;notice b list",
        "6;notice: line 0: Short;0;",
    ),
];

#[test]
fn commands_are_answered_in_turn(rt: HostRuntime) -> Result<(), Fail> {
    let alloc = rt.alloc();
    let around = files(ADD, RESCHEDULE);
    for (script, wanted) in SCRIPTS {
        let wanted = spelled(alloc, wanted)?;
        assert_eq!(rt; told(alloc, &[], script, around)?, wanted, "{script}");
        assert_eq!(rt; kept_anew(alloc, script, around)?, wanted, "{script}");
    }
    let script = "notice b file outages;notice b file route;notice b list";
    let wanted = spelled(alloc, "0;0;0;")?;
    assert_eq!(rt; kept_anew(alloc, script, files(ADD, CANCEL))?, wanted);
    Ok(())
}

// Lines of words that are none of the forms.
const USAGES: &str = "\
notice
notice b
notice b;
notice b lists
notice --help
notice b list 1
notice b add
notice b add 1 5 D
notice b add 1 5 D - -
notice b add 4294967296 5 D -
notice b add -1 5 D -
notice b add 1 256 D -
notice b add 1 5 - -
notice b add 1 5 D none
notice b add 1 5 2024-02-30T00:02:00.000Z -
notice b add 1 5 1980-01-05T23:59:59.999Z -
notice b move 1 4294967296 D -
notice b cancel 1
notice b cancel 1 x
notice b cancel 1 2 3
notice b cancels 1 2
notice b file
notice b files outages
notice b file outages more
";

// A keeper that was not opened answers the fault of its opening to each call, so words that are no form make none.
#[test]
fn other_words_are_usage(rt: HostRuntime) -> Result<(), Fail> {
    let alloc = rt.alloc();
    let failing = Around {
        outages: &[],
        route: &[],
        reads: &[1],
        writes: &[1],
    };
    let mut count = 0u8;
    for line in USAGES.lines() {
        let said = kept_in_memory(alloc, Some(KeepFault::Failed), line, failing)?;
        assert!(rt;
            said.as_str().starts_with("1\nnotice: usage\n"),
            "{line} {said}"
        );
        count = count.saturating_add(1);
    }
    assert_eq!(rt; count, 24);
    Ok(())
}
