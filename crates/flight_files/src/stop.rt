// Why the files of a prediction were not read.

use raim_model::{FileNo, TextWhy};

/// Why the files of a prediction were not read: the first file that stopped the reading.
#[derive(Clone, Copy, Debug, PartialEq, Eq)]
pub enum Stop {
    /// No memory was left.
    Memory,
    /// A call on the file failed.
    Fault {
        file: FileNo,
    },
    /// The file has more than `LONGEST_FILE` bytes.
    TooLong {
        file: FileNo,
    },
    /// The file leaves its format at that line, for that cause. Lines count from 1; a fault of a whole
    /// file may have line 0.
    Refused {
        file: FileNo,
        line: u32,
        why: TextWhy,
    },
}
