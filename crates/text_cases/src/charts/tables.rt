// Texts for a chart and what they show, and texts that are refused, made by `oracle/table_of_charts.py`, which reads them
// by itself. A percent sign and a digit stand for a time: `%0`, `%1`, `%2` for 2024-10-27T00:00:00.000Z and one and two
// seconds later, `%8` for a day later, `%9` for a day and a millisecond later.
use raim_model::{Cmp, Run, TextWhy, Verdict, Why};

// What a block says.
pub enum Said {
    Flight(&'static [Run]),
    Reason(&'static [u8]),
}

// What a text shows.
pub enum Shown {
    Flight(&'static [Run]),
    Fleet(&'static [Said]),
}

pub type Read = (&'static [u8], Shown);

pub type Refused = (&'static [u8], u32, TextWhy);

pub static SHOWN: &[Read] = &[
    // A report without a line is a flight of no runs.
    (b"", Shown::Flight(&[])),
    // A flight of one run, and of several.
    (
        b"%0 %1 Available\n",
        Shown::Flight(&[Run {
            first: 1414022400000,
            end: 1414022401000,
            verdict: Verdict::Available,
        }]),
    ),
    (
        b"%0 %1 Available\n%1 %2 Unavailable Few\n%2 %8 Undecided Mask 07\n",
        Shown::Flight(&[
            Run {
                first: 1414022400000,
                end: 1414022401000,
                verdict: Verdict::Available,
            },
            Run {
                first: 1414022401000,
                end: 1414022402000,
                verdict: Verdict::Unavailable(Why::Few),
            },
            Run {
                first: 1414022402000,
                end: 1414108800000,
                verdict: Verdict::Undecided(Cmp::Mask(7)),
            },
        ]),
    ),
    // Runs of one verdict may follow one another.
    (
        b"%0 %1 Available\n%1 %2 Available\n",
        Shown::Flight(&[
            Run {
                first: 1414022400000,
                end: 1414022401000,
                verdict: Verdict::Available,
            },
            Run {
                first: 1414022401000,
                end: 1414022402000,
                verdict: Verdict::Available,
            },
        ]),
    ),
    // A flight may take a day.
    (
        b"%0 %8 Available\n",
        Shown::Flight(&[Run {
            first: 1414022400000,
            end: 1414108800000,
            verdict: Verdict::Available,
        }]),
    ),
    (
        b"%0 %1 Available\n%1 %8 Available\n",
        Shown::Flight(&[
            Run {
                first: 1414022400000,
                end: 1414022401000,
                verdict: Verdict::Available,
            },
            Run {
                first: 1414022401000,
                end: 1414108800000,
                verdict: Verdict::Available,
            },
        ]),
    ),
    // A fleet of one route and of several, with and without runs.
    (b"route 1\n", Shown::Fleet(&[Said::Flight(&[])])),
    (
        b"route 1\nroute 2\n",
        Shown::Fleet(&[Said::Flight(&[]), Said::Flight(&[])]),
    ),
    (
        b"route 1\n%0 %1 Available\n",
        Shown::Fleet(&[Said::Flight(&[Run {
            first: 1414022400000,
            end: 1414022401000,
            verdict: Verdict::Available,
        }])]),
    ),
    (
        b"route 1\n%0 %1 Available\n%1 %2 Unavailable Few\nroute 2\nroute 3\n%0 %8 Available\n",
        Shown::Fleet(&[
            Said::Flight(&[
                Run {
                    first: 1414022400000,
                    end: 1414022401000,
                    verdict: Verdict::Available,
                },
                Run {
                    first: 1414022401000,
                    end: 1414022402000,
                    verdict: Verdict::Unavailable(Why::Few),
                },
            ]),
            Said::Flight(&[]),
            Said::Flight(&[Run {
                first: 1414022400000,
                end: 1414108800000,
                verdict: Verdict::Available,
            }]),
        ]),
    ),
    // Lines in the place of a report.
    (
        b"route 1\nrefused route line 1: TooFew\nroute 2\n%0 %1 Available\nroute 3\noverflow at %0 PRN 07\nroute 4\nmore than 65536 intervals\n",
        Shown::Fleet(&[
            Said::Reason(b"refused route line 1: TooFew"),
            Said::Flight(&[Run {
                first: 1414022400000,
                end: 1414022401000,
                verdict: Verdict::Available,
            }]),
            Said::Reason(b"overflow at 2024-10-27T00:00:00.000Z PRN 07"),
            Said::Reason(b"more than 65536 intervals"),
        ]),
    ),
    (
        b"route 1\nrefused \n",
        Shown::Fleet(&[Said::Reason(b"refused ")]),
    ),
    // Such a line has any bytes.
    (
        b"route 1\nrefused <b>&\"\xff\x00\r\nroute 2\nmore than route 3\n",
        Shown::Fleet(&[
            Said::Reason(b"refused <b>&\"\xff\x00\r"),
            Said::Reason(b"more than route 3"),
        ]),
    ),
    // Numbers of two digits.
    (
        b"route 1\nroute 2\nroute 3\nroute 4\nroute 5\nroute 6\nroute 7\nroute 8\nroute 9\nroute 10\nroute 11\nroute 12\n",
        Shown::Fleet(&[
            Said::Flight(&[]),
            Said::Flight(&[]),
            Said::Flight(&[]),
            Said::Flight(&[]),
            Said::Flight(&[]),
            Said::Flight(&[]),
            Said::Flight(&[]),
            Said::Flight(&[]),
            Said::Flight(&[]),
            Said::Flight(&[]),
            Said::Flight(&[]),
            Said::Flight(&[]),
        ]),
    ),
];

pub static REFUSED: &[Refused] = &[
    // A report is refused as such first.
    (b"x\n", 1, TextWhy::Word),
    (b"%0 %1 Available", 1, TextWhy::Short),
    (b"%0 %2 Available\n%1 %8 Available\n\n", 3, TextWhy::Word),
    (b"%0 %9 Available\n%0 %0 Available\n", 2, TextWhy::NotRising),
    (b"\n", 1, TextWhy::Word),
    // A run begins where the one before it ends.
    (b"%0 %1 Available\n%2 %8 Available\n", 2, TextWhy::NotRising),
    (b"%0 %2 Available\n%1 %8 Available\n", 2, TextWhy::NotRising),
    (
        b"%0 %1 Available\n%1 %2 Available\n%0 %1 Available\n%2 %8 Available\n",
        3,
        TextWhy::NotRising,
    ),
    // A flight takes a day at most.
    (b"%0 %9 Available\n", 1, TextWhy::TooLong),
    (b"%0 %1 Available\n%1 %9 Available\n", 2, TextWhy::TooLong),
    (b"%0 %1 Available\n%2 %9 Available\n", 2, TextWhy::NotRising),
    (
        b"%0 %1 Available\n%1 %8 Available\n%8 %9 Available\n",
        3,
        TextWhy::TooLong,
    ),
    // Other first lines are no fleet's.
    (b"route 1", 1, TextWhy::Short),
    (b"route 1 \n", 1, TextWhy::Word),
    (b"route 2\n", 1, TextWhy::Word),
    (b"route 01\n", 1, TextWhy::Word),
    (b"Route 1\n", 1, TextWhy::Word),
    (b" route 1\n", 1, TextWhy::Word),
    (b"route 1\r\n", 1, TextWhy::Word),
    (b"refused route line 1: TooFew\n", 1, TextWhy::Word),
    // Heads are in order.
    (b"route 1\nroute 3\n", 2, TextWhy::Label),
    (b"route 1\nroute 1\n", 2, TextWhy::Label),
    (b"route 1\nroute 02\n", 2, TextWhy::Label),
    (b"route 1\nroute 2 \n", 2, TextWhy::Label),
    (b"route 1\nroute 2", 2, TextWhy::Label),
    (b"route 1\nroute \n", 2, TextWhy::Label),
    (
        b"route 1\n%0 %1 Available\nroute 2\nroute 2\n",
        4,
        TextWhy::Label,
    ),
    (b"route 1\nroute 2\r\n", 2, TextWhy::Label),
    // What is no head is a line of the block.
    (b"route 1\nroute\n", 2, TextWhy::Word),
    (b"route 1\nRoute 2\n", 2, TextWhy::Word),
    (b"route 1\n\nroute 2\n", 2, TextWhy::Word),
    // A report in a block is refused as any.
    (
        b"route 1\n%0 %1 Available\nroute 2\n%0 %1 Available\n%2 %8 Available\nroute 3\n",
        5,
        TextWhy::NotRising,
    ),
    (
        b"route 1\nrefused x\nroute 2\n%0 %1 Available\n%1 %9 Available\n",
        5,
        TextWhy::TooLong,
    ),
    (
        b"route 1\n%0 %1 Available\n%1 %2 Undecided Mask 33\nroute 5\n",
        3,
        TextWhy::Range,
    ),
    (b"route 1\n%0 %1 Available", 2, TextWhy::Short),
    // A line in the place of a report stands alone.
    (
        b"route 1\nrefused x\nrefused y\nroute 2\n",
        3,
        TextWhy::Word,
    ),
    (b"route 1\nmore than x\n%0 %1 Available\n", 3, TextWhy::Word),
    (b"route 1\noverflow at x\n\n", 3, TextWhy::Word),
    (b"route 1\nrefused x\ny", 3, TextWhy::Word),
    // And has its line feed.
    (b"route 1\nrefused x", 2, TextWhy::Short),
    (b"route 1\nroute 2\nmore than ", 3, TextWhy::Short),
    // Other beginnings are a report's.
    (b"route 1\nrefused\n", 2, TextWhy::Word),
    (b"route 1\nmore  than x\n", 2, TextWhy::Word),
    (b"route 1\n refused x\n", 2, TextWhy::Word),
    (b"route 1\n%0 %1 Available\nrefused x\n", 3, TextWhy::Word),
    // The first block that is refused is named.
    (b"route 1\nx\nroute 3\n", 2, TextWhy::Word),
    (b"route 1\nroute 3\nx\n", 2, TextWhy::Label),
];
