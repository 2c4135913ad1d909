//! Tests of sines, anomalies, satellites, receivers and views, and of their forms: tables that `oracle/` works out in whole numbers of any size.
#![tactic(auto)]

#[cfg(test)]
mod anomalies;
#[cfg(test)]
mod anomaly_table;
#[cfg(test)]
mod form_sights;
#[cfg(test)]
mod form_tables;
#[cfg(test)]
mod frames;
#[cfg(test)]
mod places;
#[cfg(test)]
mod position_table;
#[cfg(test)]
mod positions;
#[cfg(test)]
mod records;
#[cfg(test)]
mod sine_table;
#[cfg(test)]
mod sines;
#[cfg(test)]
mod views;
