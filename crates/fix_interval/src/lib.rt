//! Interval arithmetic on whole numbers of units of 2^-38: each operation is exact by its definition on plain ends in
//! `specs/`, encloses the operation on fractions, and is isotone.
#![tactic(auto)]

mod comparisons;
mod decimals;
mod interval;
mod interval_64;
mod pairs;
mod points;
mod products;
mod quotients;
mod roots;
mod searches;
mod sums;
mod unit_products;
mod widths;

pub use comparisons::{certainly_le, certainly_lt, clamp, hull};
pub use decimals::{dec56_milli, dec76};
pub use interval::Iv;
pub use interval_64::Iv64;
pub use pairs::{PairsOver, hull_over};
pub use points::UNITS_IN_ONE;
pub use products::{checked_mul, mul, mul_wide, narrow76, scale_int, sqr, sqr_wide};
pub use quotients::{div, div_int};
pub use roots::sqrt;
pub use searches::{Probe, last_passing};
pub use sums::{add, sub};
pub use unit_products::{product_down, product_up};
