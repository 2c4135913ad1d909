//! The tests that cross crates: words and files in; texts, notes and statuses out.
#![tactic(auto)]

#[cfg(test)]
mod charts;
#[cfg(test)]
mod demonstrations;
#[cfg(test)]
mod desks;
#[cfg(test)]
mod ends;
#[cfg(test)]
mod faults;
#[cfg(test)]
mod files;
#[cfg(test)]
mod fleets;
#[cfg(test)]
mod flights;
#[cfg(test)]
mod forecasts;
#[cfg(test)]
mod over;
#[cfg(test)]
mod refusals;
#[cfg(test)]
mod requests;
#[cfg(test)]
mod sizes;
#[cfg(test)]
mod words;
