// A form whose numbers fit 128 bits.

/// `centre + turning d / h`, give or take `remainder`, at a time d after the middle of a piece of half length h. In units
/// of 2^-76, where nothing else is said.
#[derive(Clone, Copy)]
pub struct WideForm {
    pub centre: i128,
    pub turning: i128,
    pub remainder: i128,
}
