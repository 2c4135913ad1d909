//! Tests of whole numbers, intervals, time forms and their matrices: tables that `oracle/` works out in whole numbers of any size.
#![tactic(auto)]

#[cfg(test)]
mod form_table;
#[cfg(test)]
mod interval_table;
#[cfg(test)]
mod intervals;
#[cfg(test)]
mod matrices;
#[cfg(test)]
mod rounding;
