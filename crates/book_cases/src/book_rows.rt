// Books of notices, with the answer to each and the outages in effect at the end, made by `oracle/table_of_books.py`,
// which works them out from the whole list of notices. `A` stands for the first millisecond that a notice may have, `Z`
// for the last, and `B` to `G` for six minutes of 2024-10-27 from 00:00 on.

// A line a book: the notices, their answers and the lines of the outages, each ended by `;`, with `|` between the three.
pub const BOOKS: &str = "||
add 1 1 A Z;add 2 32 Z -;add 3 33 A -;add 3 0 A -;add 3 255 A -;add 0 5 A -;|Done;Done;BadNotice;BadNotice;BadNotice;BadNotice;|01 A Z;32 Z -;
add 4294967295 7 B C;add 4294967295 8 B C;cancel 4294967295 4294967295;move 4294967295 4294967295 B -;add 4294967295 33 B C;|Done;Old 4294967295;Old 4294967295;Old 4294967295;BadNotice;|07 B C;
add 4294967294 7 B C;cancel 4294967295 4294967294;add 1 7 B C;|Done;Done;Old 4294967295;|
add 1 5 C C;add 1 5 D C;add 1 5 C D;move 2 1 D D;move 2 1 D E;|BadNotice;BadNotice;Done;BadNotice;Done;|05 D E;
add 3 5 B -;add 3 6 B -;cancel 3 3;cancel 4 4;cancel 4 3;cancel 5 3;move 6 3 B -;|Done;Old 3;Old 3;Unknown;Done;Unknown;Unknown;|
cancel 9 1;move 9 1 B -;add 1 5 B -;|Unknown;Unknown;Done;|05 B -;
add 1 5 B C;move 2 1 C D;move 3 2 D E;cancel 4 2;cancel 5 1;cancel 6 5;|Done;Done;Unknown;Unknown;Done;Unknown;|
add 1 5 B C;move 2 1 C D;move 3 1 E -;add 4 5 B C;move 5 4 D G;move 6 1 F G;|Done;Done;Done;Done;Done;Done;|05 F G;05 D G;
add 1 30 F G;add 2 2 B C;add 5 11 D E;move 6 1 G -;cancel 7 2;add 8 1 B -;|Done;Done;Done;Done;Done;Done;|30 G -;11 D E;01 B -;
add 1 5 B D;add 2 5 C E;cancel 3 1;add 4 5 B D;|Done;Done;Done;Done;|05 C E;05 B D;
add 2 5 B -;cancel 2 0;cancel 1 9;cancel 3 9;move 2 0 B -;move 1 9 C B;|Done;BadNotice;Old 2;Unknown;BadNotice;BadNotice;|05 B -;
add 1 20 B F;move 3 1 F G;add 4 3 F G;move 6 1 E -;move 7 4 B E;cancel 6 4;move 7 1 F G;move 9 4 D D;|Done;Done;Done;Done;Done;Old 7;Old 7;BadNotice;|20 E -;03 B E;
add 1 12 E F;move 3 1 C -;add 4 27 B -;move 6 5 E F;cancel 8 5;add 9 17 B E;add 11 19 C D;move 12 4 D E;move 11 9 C -;move 12 9 C G;|Done;Done;Done;Unknown;Unknown;Done;Done;Done;Old 12;Old 12;|12 C -;27 D E;17 B E;19 C D;
add 2 33 E -;move 4 1 F -;move 6 2 C E;move 8 2 F G;add 10 21 F -;add 10 6 E G;add 12 1 C D;add 14 32 F F;cancel 16 2;move 17 12 B D;cancel 19 5;|BadNotice;Unknown;Unknown;Unknown;Done;Old 10;Done;BadNotice;Unknown;Done;Unknown;|21 F -;01 B D;
add 1 28 C -;cancel 3 1;cancel 5 1;add 6 17 C F;move 5 1 B F;cancel 6 1;add 8 1 C -;cancel 10 1;|Done;Done;Unknown;Done;Old 6;Old 6;Done;Unknown;|17 C F;01 C -;
add 1 20 F G;cancel 3 3;move 5 1 B G;add 6 10 F -;add 8 13 C G;add 8 29 F G;add 9 10 D F;add 10 28 F G;add 12 7 B D;move 14 1 D F;|Done;Unknown;Done;Done;Done;Old 8;Done;Done;Done;Done;|20 D F;10 F -;13 C G;10 D F;28 F G;07 B D;
add 2 12 C C;add 4 24 B F;move 6 4 F -;add 7 5 F G;add 8 8 D D;add 10 22 C E;add 12 14 E G;add 13 33 B E;add 14 24 F -;move 15 4 D -;move 16 13 B F;|BadNotice;Done;Done;Done;BadNotice;Done;Done;BadNotice;Done;Done;Unknown;|24 D -;05 F G;22 C E;14 E G;24 F -;
add 2 4 F F;add 3 30 D -;add 5 30 F -;move 6 5 B -;move 8 6 B E;cancel 8 5;cancel 8 5;move 10 7 E G;|BadNotice;Done;Done;Done;Unknown;Done;Old 8;Unknown;|30 D -;
add 1 28 B D;add 3 17 B C;add 5 7 F -;cancel 6 5;add 7 30 E -;move 9 3 C D;add 11 8 B -;move 13 1 D E;add 14 12 C D;add 16 21 B G;|Done;Done;Done;Done;Done;Done;Done;Done;Done;Done;|28 D E;17 C D;30 E -;08 B -;12 C D;21 B G;
add 1 20 E F;add 3 31 F -;add 4 28 D F;move 6 1 F -;move 7 3 D D;move 9 4 F G;move 11 4 D G;move 13 1 D E;add 14 31 D F;cancel 13 4;move 14 4 E -;|Done;Done;Done;Done;BadNotice;Done;Done;Done;Done;Old 14;Old 14;|20 D E;31 F -;28 D G;31 D F;
add 2 12 B G;move 4 2 D -;add 5 27 C F;cancel 7 6;cancel 8 2;move 9 5 B -;move 10 2 D F;|Done;Done;Done;Unknown;Done;Done;Unknown;|27 B -;
add 2 4 E F;move 4 2 F G;move 6 2 C G;cancel 6 4;move 8 2 B C;cancel 9 2;add 11 27 D E;add 10 26 F F;move 12 2 D F;cancel 11 10;|Done;Done;Done;Old 6;Done;Done;Done;BadNotice;Unknown;Old 11;|27 D E;
add 1 28 F G;move 3 1 C G;move 5 1 B E;cancel 7 1;add 9 17 D -;add 10 17 C G;cancel 12 1;move 14 10 E G;add 13 20 B E;move 15 1 E E;move 17 1 B -;|Done;Done;Done;Done;Done;Done;Unknown;Done;Old 14;BadNotice;Unknown;|17 D -;17 E G;
add 1 20 E F;move 3 3 B D;cancel 4 1;add 5 25 C D;move 7 1 F G;add 8 13 B E;move 9 1 C F;|Done;Unknown;Done;Done;Unknown;Done;Unknown;|25 C D;13 B E;
add 2 12 F -;move 4 2 D F;add 6 33 D G;cancel 7 2;move 8 2 F -;add 7 8 C -;add 9 32 F -;move 10 7 B -;move 11 11 B B;move 13 9 C F;|Done;Done;BadNotice;Done;Unknown;Old 7;Done;Unknown;BadNotice;Done;|32 C F;
add 2 4 D F;move 1 2 E E;move 3 2 B D;move 5 2 F -;move 7 2 C D;move 8 2 F G;add 9 33 C F;cancel 11 2;move 13 5 C G;add 14 14 D E;move 16 12 D D;|Done;BadNotice;Done;Done;Done;Done;BadNotice;Done;Unknown;Done;BadNotice;|14 D E;
add 1 28 F -;cancel 3 1;move 4 1 E -;add 6 19 E F;move 7 1 E -;move 8 1 B -;move 9 6 E -;|Done;Done;Unknown;Done;Unknown;Unknown;Done;|19 E -;
add 1 20 D G;add 3 33 F G;move 5 1 B G;add 6 25 E F;move 5 1 E -;cancel 5 1;cancel 6 3;move 8 6 B D;move 10 6 D E;cancel 11 3;|Done;BadNotice;Done;Done;Old 6;Old 6;Old 6;Done;Done;Unknown;|20 B G;25 D E;
add 2 13 E F;add 1 32 F F;add 3 15 D G;cancel 5 3;add 6 7 F G;cancel 7 1;add 8 11 C G;cancel 10 2;move 12 9 F G;add 13 12 D F;move 15 13 F G;|Done;BadNotice;Done;Done;Done;Unknown;Done;Done;Unknown;Done;Done;|07 F G;11 C G;12 F G;
add 2 5 D G;add 4 33 D D;add 5 18 F -;add 6 25 E -;move 8 5 C D;move 10 5 D -;add 11 22 B C;|Done;BadNotice;Done;Done;Done;Done;Done;|05 D G;18 D -;25 E -;22 B C;
add 1 33 B F;move 3 1 E F;move 4 4 B -;cancel 4 1;move 6 1 C D;move 8 1 C D;move 10 9 B G;add 10 17 F -;cancel 9 10;move 11 1 B G;|BadNotice;Unknown;Unknown;Unknown;Unknown;Unknown;Unknown;Done;Old 10;Unknown;|17 F -;
add 1 21 C -;add 2 11 E G;move 2 2 C C;add 3 32 B E;move 4 2 D E;move 3 1 C D;cancel 4 3;cancel 6 2;move 7 7 E F;add 9 11 F G;add 11 27 B -;|Done;Done;BadNotice;Done;Done;Old 4;Old 4;Done;Unknown;Done;Done;|21 C -;32 B E;11 F G;27 B -;
add 2 13 E -;move 3 2 E -;cancel 4 2;move 6 2 E F;move 8 2 D F;add 10 26 B -;move 11 4 C -;|Done;Done;Done;Unknown;Unknown;Done;Unknown;|26 B -;
add 1 5 C D;move 2 1 B -;add 4 33 E -;cancel 6 4;cancel 7 4;cancel 8 1;add 10 32 C D;move 12 1 E G;|Done;Done;BadNotice;Unknown;Unknown;Done;Done;Unknown;|32 C D;
add 1 29 D E;move 2 1 D -;move 2 1 C D;cancel 4 1;add 5 16 E -;cancel 6 5;move 7 2 C F;add 8 31 D F;move 10 5 D F;cancel 12 1;move 14 8 E F;|Done;Done;Old 2;Done;Done;Done;Unknown;Done;Unknown;Unknown;Done;|31 E F;
add 2 21 E G;move 3 3 C E;cancel 5 2;add 7 32 D E;move 8 7 D E;cancel 10 2;cancel 12 2;|Done;Unknown;Done;Done;Done;Unknown;Unknown;|32 D E;
add 2 13 D F;move 3 2 E G;add 5 26 B E;add 4 32 D D;add 6 27 D -;add 8 4 E -;move 10 4 E G;add 11 33 D E;|Done;Done;Done;BadNotice;Done;Done;Unknown;BadNotice;|13 E G;26 B E;27 D -;04 E -;
add 1 5 E G;move 2 1 F -;add 3 18 C -;move 5 4 C G;move 6 1 E F;move 5 1 B D;cancel 6 3;add 8 21 F G;move 7 1 F -;cancel 9 3;move 10 4 D E;|Done;Done;Done;Unknown;Done;Old 6;Old 6;Done;Old 8;Done;Unknown;|05 E F;21 F G;
add 1 29 C D;add 2 14 B -;move 3 1 D -;cancel 5 3;add 7 2 E -;add 9 11 B E;move 11 2 D E;|Done;Done;Done;Unknown;Done;Done;Done;|29 D -;14 D E;02 E -;11 B E;
add 2 21 E F;add 3 29 D F;add 5 8 D -;add 4 25 F -;move 5 2 B B;cancel 6 1;move 7 2 B G;cancel 9 3;|Done;Done;Done;Old 5;BadNotice;Unknown;Done;Done;|21 B G;08 D -;
add 2 13 C E;add 3 11 D G;cancel 2 2;add 3 19 E F;add 5 23 B -;move 4 2 C G;move 5 3 E G;move 4 3 E F;add 6 3 F G;cancel 8 3;|Done;Done;Old 3;Old 3;Done;Old 5;Old 5;Old 5;Done;Done;|13 C E;23 B -;03 F G;
add 1 5 D G;add 2 25 D -;move 2 1 B -;add 4 33 E F;move 3 1 F G;move 2 1 F -;move 4 4 F G;|Done;Done;Old 2;BadNotice;Done;Old 3;Unknown;|05 F G;25 D -;
add 1 29 C D;add 2 8 C G;move 4 1 C -;move 6 1 C E;move 7 1 F G;cancel 8 1;add 9 24 F G;move 10 9 D G;|Done;Done;Done;Done;Done;Done;Done;Done;|08 C G;24 D G;
add 2 21 D -;add 3 22 C D;move 4 1 D E;add 5 33 D D;move 6 5 E G;add 6 4 C G;move 7 2 C F;move 9 2 D -;add 10 8 F F;cancel 12 6;|Done;Done;Unknown;BadNotice;Unknown;Done;Done;Done;BadNotice;Done;|21 D -;22 C D;
add 2 13 B D;move 3 2 F -;add 5 25 E -;move 6 2 D F;add 6 31 B C;cancel 8 6;move 10 7 E -;|Done;Done;Done;Done;Old 6;Unknown;Unknown;|13 D F;25 E -;
add 1 5 D -;move 2 1 C D;add 3 17 F -;cancel 4 1;add 5 22 C -;add 6 9 B C;move 7 6 F F;add 9 24 C E;|Done;Done;Done;Done;Done;Done;BadNotice;Done;|17 F -;22 C -;09 B C;24 C E;
add 1 29 B G;move 2 1 E E;add 4 33 C C;move 5 1 C G;add 7 2 C G;cancel 6 4;move 8 1 F G;cancel 10 7;add 11 11 F G;move 10 11 C F;|Done;BadNotice;BadNotice;Done;Done;Old 7;Done;Done;Done;Old 11;|29 F G;11 F G;
add 2 33 C -;move 1 2 E G;cancel 3 3;move 5 2 B E;add 7 33 F G;cancel 8 6;move 10 2 C E;|BadNotice;Unknown;Unknown;Unknown;BadNotice;Unknown;Unknown;|
add 2 13 B B;move 3 1 D E;add 5 29 F F;add 7 27 F -;move 9 2 F G;move 11 4 B F;move 12 7 B C;add 14 13 F -;|BadNotice;Unknown;BadNotice;Done;Unknown;Unknown;Done;Done;|27 B C;13 F -;
add 1 5 C E;add 2 11 E -;add 4 30 F G;add 5 13 B D;add 7 29 F G;move 9 7 B C;add 10 12 D -;add 12 11 C C;move 12 11 F G;move 13 5 C D;|Done;Done;Done;Done;Done;Done;Done;BadNotice;Unknown;Done;|05 C E;11 E -;30 F G;13 C D;29 B C;12 D -;
add 1 29 F -;add 1 26 C D;cancel 2 1;move 3 1 C D;add 5 18 E F;add 7 16 E G;move 9 1 F -;|Done;Old 1;Done;Unknown;Done;Done;Unknown;|18 E F;16 E G;
add 2 21 B -;add 3 8 C G;cancel 5 2;move 7 2 E G;add 6 30 E -;add 7 12 C E;add 9 17 D -;add 10 31 B F;|Done;Done;Done;Unknown;Done;Done;Done;Done;|08 C G;30 E -;12 C E;17 D -;31 B F;
add 1 13 F G;add 2 22 B D;move 4 4 B G;add 5 17 C G;move 4 3 B D;move 6 1 C D;move 8 1 B D;move 10 1 C C;move 12 5 D E;move 13 5 E G;|Done;Done;Unknown;Done;Old 5;Done;Done;BadNotice;Done;Done;|13 B D;22 B D;17 E G;
add 1 5 B G;add 1 4 B D;add 2 19 B E;cancel 4 2;cancel 6 2;cancel 7 1;add 7 16 E E;|Done;Old 1;Done;Done;Unknown;Done;BadNotice;|
add 2 29 C E;add 3 19 F G;add 5 33 F -;add 6 5 E G;cancel 7 6;move 8 6 B -;add 10 23 B -;add 11 10 D D;|Done;Done;BadNotice;Done;Done;Unknown;Done;BadNotice;|29 C E;19 F G;23 B -;
add 2 21 B D;move 3 2 C -;cancel 5 2;move 7 2 B F;cancel 9 2;add 10 29 B C;cancel 12 10;add 13 19 B F;add 14 29 F G;move 15 10 D F;|Done;Done;Done;Unknown;Unknown;Done;Done;Done;Done;Unknown;|19 B F;29 F G;
add 1 13 C D;move 2 1 B F;move 3 1 D E;cancel 3 1;move 5 1 F G;move 6 1 B -;move 8 1 E G;|Done;Done;Done;Old 3;Done;Done;Done;|13 E G;
add 1 6 F -;move 2 1 D F;add 3 16 E G;move 5 3 E -;add 6 14 E G;move 8 3 B B;move 9 8 F G;cancel 10 3;|Done;Done;Done;Done;Done;BadNotice;Unknown;Done;|06 D F;14 E G;
add 2 30 C E;move 3 2 F G;move 2 2 D E;move 3 2 E F;cancel 5 2;cancel 6 2;move 7 2 F G;move 8 2 D E;cancel 10 2;move 12 2 F G;|Done;Done;Old 3;Old 3;Done;Unknown;Unknown;Unknown;Unknown;Unknown;|
";
