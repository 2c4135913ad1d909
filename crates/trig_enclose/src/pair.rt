// A sine and a cosine.
use fix_interval::Iv64;

/// The sine and the cosine of an interval of turns, by ends of 64 bits.
#[derive(Clone, Copy)]
pub(crate) struct Pair64 {
    pub(crate) sine: Iv64,
    pub(crate) cosine: Iv64,
}
