// The texts of a second at one place on the equator, from the begin of GPS week 2338 on.

/// Detection of the mildest kind: a mask under foot, the greatest alert limit and the least bias, and no leap second.
pub const MILD: &str = "leap 0\nmask -90\nalert 1000000000\nbias 5 1\n";

/// The least alert limit and the greatest bias.
pub const OVERFLOWING: &str = "leap 0\nmask -90\nalert 1\nbias 5 1000000000\n";

pub const SECOND: &str = "2024-10-27T00:00:00.000Z 0 0 0\n2024-10-27T00:00:01.000Z 0 0 0\n";

/// Satellite 3 is out for three tenths of the second.
pub const OUTAGE: &str = "03 2024-10-27T00:00:00.200Z 2024-10-27T00:00:00.500Z\n";

/// The report of the second with that outage, where the five satellites are available.
pub const THREE_RUNS: &str = "\
2024-10-27T00:00:00.000Z 2024-10-27T00:00:00.200Z Available
2024-10-27T00:00:00.200Z 2024-10-27T00:00:00.500Z Unavailable Few
2024-10-27T00:00:00.500Z 2024-10-27T00:00:01.000Z Available
";
