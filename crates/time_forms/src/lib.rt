//! Time forms: over a piece of time of half length h, a form (centre, turning, remainder) stands, at a time d after the
//! middle, for the whole numbers from centre + turning d / h - remainder to centre + turning d / h + remainder. Each
//! operation on forms promises that where the intervals of one millisecond lie in the forms, the answer of the interval
//! operation lies in the answer. So what is certain of forms is certain of the interval evaluation at each millisecond.
#![tactic(auto)]

mod laws;
mod multiples;
mod narrowing;
mod products;
mod quantities;
mod quotients;
mod roots;
mod shares;
mod short;
mod spans;
mod sums;
mod time_form;
mod wide_form;

pub use laws::{
    forms_are_inside_their_spans, known_forms_hold, products_of_forms_hold,
    quotients_of_forms_hold, roots_of_forms_hold, short_forms_are_the_same, sums_of_forms_hold,
};
pub use multiples::multiple;
pub use narrowing::{mul, narrow};
pub use products::{square, wide_product};
pub use quantities::{fixed, linear};
pub use quotients::div;
pub use roots::sqrt;
pub use short::in_64_bits;
pub use spans::{greatest, least};
pub use sums::{add, add_wide, neg, sub, sub_wide};
pub use time_form::TimeForm;
pub use wide_form::WideForm;
