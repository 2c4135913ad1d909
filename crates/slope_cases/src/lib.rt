//! Tests of geometries, slopes, exclusion and the almanac in force: tables that `oracle/` works out in whole numbers of any size.
#![tactic(auto)]

#[cfg(test)]
mod almanacs_in_force;
#[cfg(test)]
mod geometries;
#[cfg(test)]
mod geometry_table;
#[cfg(test)]
mod slope_table;
#[cfg(test)]
mod slopes;
#[cfg(test)]
mod tested;
#[cfg(test)]
mod vertical_slopes;
