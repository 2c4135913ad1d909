//! Laws of the definitions of runs and of judgements: what they say hangs together for any verdict of pieces
//! of time.
//!
//! The functions are empty: their contracts state what is proved.
#![tactic(auto)]

mod laws;

pub use laws::{
    a_range_has_an_answer, answers_exclude_one_another, judgements_are_counted,
    open_pieces_are_halved,
};
