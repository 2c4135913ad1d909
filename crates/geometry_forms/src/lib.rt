//! The geometry of satellites in time forms: the normal matrix of rows, its determinant and its adjugate, and what a row has of it; the definitions, and
//! their laws. There is no code: each function is empty, and its contract is a law.
#![tactic(auto)]

mod laws;

pub use laws::{
    adjugates_of_forms_hold, determinants_of_forms_hold, normal_matrices_of_forms_hold,
};
