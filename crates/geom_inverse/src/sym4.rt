// A symmetric matrix of four rows and columns.

use fix_interval::Iv;

/// The entries on and above the diagonal. Rows and columns 1 to 4 are east, north, up and the clock.
#[derive(Clone, Copy)]
pub struct Sym4 {
    pub a11: Iv,
    pub a12: Iv,
    pub a13: Iv,
    pub a14: Iv,
    pub a22: Iv,
    pub a23: Iv,
    pub a24: Iv,
    pub a33: Iv,
    pub a34: Iv,
    pub a44: Iv,
}
