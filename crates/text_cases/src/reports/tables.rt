// Reports and what they say, and texts that are refused, made by `oracle/table_of_reports.py`, which reads them
// by itself. `X` stands for 2024-10-27T00:00:00.000Z, and `Y` for one second later.
use raim_model::{Cmp, Run, TextWhy, Verdict, Why};

pub type Read = (&'static [u8], &'static [Run]);

pub type Refused = (&'static [u8], u32, TextWhy);

pub fn reports() -> &'static [Read] {
    &[
        // No run has no line.
        (b"", &[]),
        // The nine verdicts.
        (
            b"X Y Available\n",
            &[Run {
                first: 1414022418000,
                end: 1414022419000,
                verdict: Verdict::Available,
            }],
        ),
        (
            b"X Y Unavailable Few\n",
            &[Run {
                first: 1414022418000,
                end: 1414022419000,
                verdict: Verdict::Unavailable(Why::Few),
            }],
        ),
        (
            b"X Y Unavailable Singular\n",
            &[Run {
                first: 1414022418000,
                end: 1414022419000,
                verdict: Verdict::Unavailable(Why::Singular),
            }],
        ),
        (
            b"X Y Unavailable Slope\n",
            &[Run {
                first: 1414022418000,
                end: 1414022419000,
                verdict: Verdict::Unavailable(Why::Slope),
            }],
        ),
        (
            b"X Y Undecided Mask 01\n",
            &[Run {
                first: 1414022418000,
                end: 1414022419000,
                verdict: Verdict::Undecided(Cmp::Mask(1)),
            }],
        ),
        (
            b"X Y Undecided Det\n",
            &[Run {
                first: 1414022418000,
                end: 1414022419000,
                verdict: Verdict::Undecided(Cmp::Det),
            }],
        ),
        (
            b"X Y Undecided Slope 32\n",
            &[Run {
                first: 1414022418000,
                end: 1414022419000,
                verdict: Verdict::Undecided(Cmp::Slope(32)),
            }],
        ),
        (
            b"X Y Undecided DetWithout 10\n",
            &[Run {
                first: 1414022418000,
                end: 1414022419000,
                verdict: Verdict::Undecided(Cmp::DetWithout(10)),
            }],
        ),
        (
            b"X Y Undecided SlopeWithout 07 31\n",
            &[Run {
                first: 1414022418000,
                end: 1414022419000,
                verdict: Verdict::Undecided(Cmp::SlopeWithout(7, 31)),
            }],
        ),
        // A line feed ends a line, and the next begins.
        (
            b"X Y Available\nX Y Undecided Det\nX Y Unavailable Few\n",
            &[
                Run {
                    first: 1414022418000,
                    end: 1414022419000,
                    verdict: Verdict::Available,
                },
                Run {
                    first: 1414022418000,
                    end: 1414022419000,
                    verdict: Verdict::Undecided(Cmp::Det),
                },
                Run {
                    first: 1414022418000,
                    end: 1414022419000,
                    verdict: Verdict::Unavailable(Why::Few),
                },
            ],
        ),
        // The first and the last millisecond that have a text.
        (
            b"1980-01-06T00:00:00.000Z 9999-12-31T23:59:59.999Z Available\n",
            &[Run {
                first: 18000,
                end: 253086336017999,
                verdict: Verdict::Available,
            }],
        ),
    ]
}

pub fn damaged_reports() -> &'static [Refused] {
    &[
        // No line feed ends the last line: tried before all else.
        (b"X Y Unavailable Few", 1, TextWhy::Short),
        (b"X Y Available\nX Y Available", 2, TextWhy::Short),
        (b"x", 1, TextWhy::Short),
        // Blanks are one space, and only where one belongs.
        (b"X  Y Unavailable Few\n", 1, TextWhy::Word),
        (b"X Y  Available\n", 1, TextWhy::Word),
        (b" X Y Available\n", 1, TextWhy::Word),
        (b"X Y Available \n", 1, TextWhy::Word),
        (b"X\tY Available\n", 1, TextWhy::Word),
        (b"XY Available\n", 1, TextWhy::Word),
        // A carriage return is a byte of its line.
        (b"X Y Unavailable Few\r\n", 1, TextWhy::Word),
        (b"X Y Available\n\rX Y Available\n", 2, TextWhy::Time),
        // A line may not be empty.
        (b"\n", 1, TextWhy::Word),
        (b"X Y Available\n\n", 2, TextWhy::Word),
        (b"X Y\n", 1, TextWhy::Word),
        (b"X Y \n", 1, TextWhy::Word),
        // A PRN has two digits.
        (b"X Y Undecided Mask 7\n", 1, TextWhy::Word),
        (b"X Y Undecided Mask 007\n", 1, TextWhy::Word),
        (b"X Y Undecided Mask 0x\n", 1, TextWhy::Word),
        (b"X Y Undecided SlopeWithout 07\n", 1, TextWhy::Word),
        (b"X Y Undecided Mask +7\n", 1, TextWhy::Word),
        // Other words are no verdict.
        (b"X Y available\n", 1, TextWhy::Word),
        (b"X Y Unavailable\n", 1, TextWhy::Word),
        (b"X Y Undecided\n", 1, TextWhy::Word),
        (b"X Y Overflow 01\n", 1, TextWhy::Word),
        (b"X Y Undecided Det 01\n", 1, TextWhy::Word),
        (b"X Y Availablf\n", 1, TextWhy::Word),
        // The words are tried before the times, the times before the PRNs.
        (b"Z Y Few\n", 1, TextWhy::Word),
        (b"Z Y Available\n", 1, TextWhy::Time),
        (b"X Z Undecided Mask 33\n", 1, TextWhy::Time),
        (b"X - Available\n", 1, TextWhy::Time),
        // The PRNs are tried before the order of the times.
        (b"X Y Undecided Mask 33\n", 1, TextWhy::Range),
        (b"X Y Undecided Mask 00\n", 1, TextWhy::Range),
        (b"Y X Undecided SlopeWithout 07 33\n", 1, TextWhy::Range),
        (b"X Y Undecided DetWithout 99\n", 1, TextWhy::Range),
        // The end is after the start.
        (b"Y X Available\n", 1, TextWhy::NotRising),
        (b"X X Undecided Det\n", 1, TextWhy::NotRising),
        // The first line that is refused is named.
        (
            b"X Y Available\nY Z Undecided Mask 33\nX\n",
            2,
            TextWhy::Time,
        ),
    ]
}
