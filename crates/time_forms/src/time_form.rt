// A form whose numbers fit 64 bits.

/// `centre + turning d / h`, give or take `remainder`, at a time d after the middle of a piece of half length h. In units
/// of 2^-38, where nothing else is said.
#[derive(Clone, Copy)]
pub struct TimeForm {
    pub centre: i64,
    pub turning: i64,
    pub remainder: i64,
}
