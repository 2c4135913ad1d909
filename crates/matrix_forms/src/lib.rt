//! Matrices of time forms, in 64 and 128 bits: minors, determinants, adjugates, and what a row has of them, as `geometry_forms`
//! defines them. Where a number leaves 64 bits there is no form, of which nothing is certain.
#![tactic(auto)]

mod cofactors;
mod determinant;
mod lines;
mod matrix;
mod minor;
mod minors;
mod normal;
mod products;
mod row;
mod shares;

pub use cofactors::{row_up, rows_across};
pub use determinant::det;
pub use matrix::{FormMatrix, WideMatrix};
pub use normal::{normal_matrix, sums, sums_less};
pub use row::FormRow;
pub use shares::{horizontal, share, vertical};
