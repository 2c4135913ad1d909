// Messages with one line changed, and files of messages, made by `oracle/table_of_messages.py`, which reads the texts by itself.

// A line a row: the message, the number of its line, what stands there, and what a run says, nothing where all is accepted.
pub const CHANGES: &str = "A|1|NANU TYPE FCSTDV|line 1: Label
A|1||line 2: Label
A|1|TYPE: FCSTDV|line 1: Label
A|1|NANU TYPES: FCSTDV|line 1: Label
A|1|NANU TYP: FCSTDV|line 1: Label
A|1|: FCSTDV|line 1: Label
A|1|NANU TYPE:|line 1: Word
A|1|NANU TYPE: fcstdv|line 1: Word
A|1|NANU TYPE: FCSTDV X|line 1: Word
A|1|NANU TYPE: FCSTDVX|line 1: Word
A|1|NANU TYPE:: FCSTDV|line 1: Word
A|1|nAnUtYpE:FCSTMX|
A|1|\tn a\tnu type : UNUSUFN\t |
A|1|NANU TYPE: UNUNOREF|
A|1|NANU TYPE: FCSTRESCD|line 3: Word
A|1|NANU TYPE: UNUSABLE|line 3: Word
A|1|NANU TYPE: FCSTCANC|line 3: Word
A|2|NANU NUMBER: 0000000|line 2: Range
A|2|NANU NUMBER: 202406|line 2: Word
A|2|NANU NUMBER: 20240610|line 2: Word
A|2|NANU NUMBER: 202406X|line 2: Word
A|2|NANU NUMBER: +202406|line 2: Word
A|2|NANU NUMBER: 2024 061|line 2: Word
A|2|NANU NUMBER:|line 2: Word
A|2|NUMBER: 2024061|line 2: Label
A|2|NANU NUMBER 2024061|line 2: Label
A|2|NANU NUMBER: 0000001|
A|2|NANU NUMBER: 9999999|
A|2|nanunumber:2024061|
A|3|REFERENCE: 2024060|line 3: Word
A|3|REFERENCE: n/a|line 3: Word
A|3|REFERENCE: N / A|line 3: Word
A|3|REFERENCE:|line 3: Word
A|3|REFERENCES: N/A|line 3: Label
A|3|PRN: 05|line 3: Label
A|3|Reference :\tN/A|
A|4|PRN: 0|line 4: Range
A|4|PRN: 33|line 4: Range
A|4|PRN: 256|line 4: Range
A|4|PRN: 9999999999|line 4: Range
A|4|PRN: 00000000005|line 4: Word
A|4|PRN: -5|line 4: Word
A|4|PRN: 5.0|line 4: Word
A|4|PRN: 5 6|line 4: Word
A|4|PRN: N/A|line 4: Word
A|4|PRN:|line 4: Word
A|4|SVN: 5|line 4: Label
A|4|PRN: 5|
A|4|PRN: 0000000032|
A|4|P R N: 1|
A|5|START: N/A|line 5: Word
A|5|START: UFN|line 5: Word
A|5|START: 2024 301 2400|line 5: Time
A|5|START: 2024 301 0060|line 5: Time
A|5|START: 2024 000 0000|line 5: Time
A|5|START: 2023 366 0000|line 5: Time
A|5|START: 2024 367 0000|line 5: Time
A|5|START: 1980 005 2359|line 5: Time
A|5|START: 0000 001 0000|line 5: Time
A|5|START: 24 301 0002|line 5: Word
A|5|START: 2024 31 0002|line 5: Word
A|5|START: 2024 301 002|line 5: Word
A|5|START: 2024 301 00:02|line 5: Word
A|5|START: 2024 301 00002|line 5: Word
A|5|START: 2024 301|line 5: Word
A|5|START: 2024 301 0002 0|line 5: Word
A|5|START: 2024301 0002|line 5: Word
A|5|START: 2024-301 0002|line 5: Word
A|5|STOP: 2024 301 0002|line 5: Label
A|5|START: 2024 301 0004|line 6: EmptySpan
A|5|START: 9999 365 2359|line 6: EmptySpan
A|5|START: 1980 006 0000|
A|5|START:2024\t301\t \t0003|
A|6|STOP: 2024 301 0002|line 6: EmptySpan
A|6|STOP: 2024 301 0001|line 6: EmptySpan
A|6|STOP: 2023 365 2359|line 6: EmptySpan
A|6|STOP: 2024 301 0003|
A|6|STOP: 2024 366 2359|
A|6|STOP: 2024 367 0000|line 6: Time
A|6|STOP: 9999 365 2359|
A|6|STOP: UFN|
A|6|STOP: ufn|line 6: Word
A|6|STOP: UFN UFN|line 6: Word
A|6|STOP: N/A|line 6: Word
A|6|STOP:|line 6: Word
A|6|END: UFN|line 6: Label
A|6|STOP 2024 301 0004|line 6: Label
A|6|STOP: 2024 301 0004 X|line 6: Word
R|2|NANU NUMBER: 0000000|line 2: Range
R|2|NANU NUMBER: 2024061|message 1: Unknown
R|3|REFERENCE: N/A|line 3: Word
R|3|REFERENCE: 0000000|line 3: Range
R|3|REFERENCE: 202406|line 3: Word
R|3|REFERENCE: 20240611|line 3: Word
R|3|REFERENCE: 9999999|message 1: Unknown
R|4|PRN: 0|line 4: Range
R|4|PRN: 33|line 4: Range
R|4|PRN: N/A|line 4: Word
R|4|PRN: 32|message 1: Unknown
R|5|START: N/A|line 5: Word
R|5|START: 2024 301 0060|line 5: Time
R|5|START: 2024 3010003|line 5: Word
R|6|STOP: N/A|line 6: Word
R|6|STOP: 2024 301 0003|line 6: EmptySpan
R|6|STOP: 2024 301 0004|message 1: Unknown
R|6|STOP: 2024 301 2460|line 6: Time
C|3|REFERENCE: N/A|line 3: Word
C|3|REFERENCE: 0000000|line 3: Range
C|3|REFERENCE:2024061|message 1: Unknown
C|4|PRN: 0|line 4: Range
C|4|PRN: 33|line 4: Range
C|4|PRN:|line 4: Word
C|5|START: 2024 301 0002|line 5: Word
C|5|START: UFN|line 5: Word
C|5|START: n/a|line 5: Word
C|5|start:N/A|message 1: Unknown
C|6|STOP: UFN|line 6: Word
C|6|STOP: 2024 301 0004|line 6: Word
C|6|STOP: N/A N/A|line 6: Word
C|6|STOP : N/A |message 1: Unknown
";

// A line a file: its notices, each ended by `;`, what a run says, and the lines of the outages at the end. `B` to `G` stand for six
// minutes of 2024-10-27 from 00:00 on.
pub const FILES: &str = "add 4 8 C F;move 5 4 B -;move 8 4 D F;||08 D F;
add 2 23 D E;add 3 32 C G;add 5 11 E F;add 6 10 E -;add 7 2 F -;cancel 9 5;||23 D E;32 C G;10 E -;02 F -;
add 2 15 F -;add 3 14 C E;move 4 3 D E;move 5 3 E G;move 7 2 C F;add 8 16 B D;cancel 9 2;||14 E G;16 B D;
add 1 7 B F;add 2 29 C G;move 4 2 E -;add 5 16 F -;cancel 7 2;cancel 8 5;add 9 1 F -;add 11 16 B -;add 13 15 B -;||07 B F;01 F -;16 B -;15 B -;
add 1 31 E -;move 2 1 F -;cancel 4 1;cancel 3 2;|message 4: Old 4|
add 2 23 F -;move 3 2 C D;move 3 2 D F;|message 3: Old 3|23 C D;
add 2 16 E -;move 4 2 C F;add 5 31 C -;add 7 6 B F;move 9 7 F G;add 11 11 C E;move 13 11 B E;move 15 11 E G;move 17 5 E -;||16 C F;31 E -;06 F G;11 E G;
add 1 8 F G;move 2 1 C -;move 4 1 F -;add 6 31 F G;||08 F -;31 F G;
add 1 32 D G;cancel 2 1;add 6 28 C E;add 8 10 C D;add 10 24 B G;cancel 12 8;||28 C E;24 B G;
add 3 24 E -;add 5 23 F G;add 7 6 E -;add 9 18 F G;add 11 1 B E;||24 E -;23 F G;06 E -;18 F G;01 B E;
add 2 16 D -;add 3 32 C G;add 4 11 C D;move 5 3 E G;move 7 2 E F;add 8 24 E F;move 9 7 F G;|message 7: Unknown|16 E F;32 E G;11 C D;24 E F;
add 1 8 E F;move 7 2 D F;|message 2: Unknown|08 E F;
add 1 32 D E;add 2 29 B D;cancel 4 1;cancel 10 2;cancel 12 2;|message 5: Unknown|
add 2 24 E -;move 5 2 D G;cancel 6 6;|message 3: Unknown|24 D G;
add 2 16 C G;add 3 26 F G;move 6 3 B -;||16 C G;26 B -;
add 1 8 E -;move 4 2 E -;|message 2: Unknown|08 E -;
";
