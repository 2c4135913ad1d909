//! The normal matrix of satellites' directions, its determinant and its adjugate, as intervals that hold those of every
//! choice of directions inside. Nothing is divided, and nothing overflows for at most 32 satellites.
//!
//! The contracts fix each answer by the definitions in `geom_laws`.
#![tactic(auto)]

mod alpha;
mod cofactors;
mod determinant;
mod entries;
mod line;
mod minor;
mod minors;
mod normal;
mod products;
mod row;
mod sym4;
mod weighed;
mod wide_sums;

pub use alpha::{alpha_east, alpha_north, alpha_up};
pub use cofactors::adjugate;
pub use determinant::{det, det_64, det_without};
pub use normal::{gram_of_sums, sums, sums_less};
pub use products::{narrow76, wide_product, wide_square};
pub use row::Row;
pub use sym4::Sym4;
