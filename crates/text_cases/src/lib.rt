//! Tests of the readers and printers of texts: tables of texts, and of damaged texts with line and cause.
#![tactic(auto)]

#[cfg(test)]
mod almanacs;
#[cfg(test)]
mod charts;
#[cfg(test)]
mod decimals;
#[cfg(test)]
mod fields;
#[cfg(test)]
mod fleets;
#[cfg(test)]
mod limits;
#[cfg(test)]
mod lines;
#[cfg(test)]
mod outages;
#[cfg(test)]
mod reports;
#[cfg(test)]
mod routes;
#[cfg(test)]
mod sem;
#[cfg(test)]
mod times;
#[cfg(test)]
mod yuma;
