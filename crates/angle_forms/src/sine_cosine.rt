// The forms of a sine and of a cosine.

use time_forms::TimeForm;

/// The forms of the sine and of the cosine of turns that change over a piece of time, in units of 2^-38.
#[derive(Clone, Copy)]
pub struct SineCosine {
    pub sine: TimeForm,
    pub cosine: TimeForm,
}
