//! Whole numbers: the laws of their order and their products, rounded quotients, and roots, which every crate of
//! exact numbers stands on. The code side is a handful of functions on `i128`.
#![tactic(auto)]

pub mod laws;
pub mod root;
pub mod rounding;
